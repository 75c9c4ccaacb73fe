// The fourth house book: tokens are moved by firings ahead of time, or by fusing two places.
#![tactic(auto)]

ghost use Rattle.std.specs.Prelude.{◌≡◌, ◌+◌, ◌*◌, ◌<◌, ◌≤◌, true, false, ◌==◌, ◌≢◌, IfOk, IfErr, length, refl};
ghost use Rattle.net.specs.Views.{SameSheet};
ghost use Rattle.net.specs.Refusals.{judged};
ghost use Rattle.net.specs.Looks.{Leaves, measured};
ghost use Rattle.net.specs.States.{view, stands};
ghost use Rattle.books.specs.Faults.{book_number, from_net, from_bytes, from_step};
ghost use Rattle.books.specs.House.{plain, owns, step_of};
ghost use Rattle.moves.specs.Columns.{SumsFit, Added};
ghost use Rattle.moves.specs.Moves.{move_width, move_taken};
ghost use Rattle.theory.specs.Rewrites.{fusing};
ghost use Rattle.theory.specs.Steps.{refusal_number, table, next, fire_ahead, fuse_places};
ghost use Rattle.theory.specs.Tests.{fusion_fits?};
ghost use Rattle.books.proofs.Housing.{house_keeps, house_refuses};
ghost use Rattle.books.proofs.Owning.{narrow};

mod ahead;
mod conditions;
mod fusion;

use ahead::Ahead;
use books::Book;
use books::faults::BookFault;
use books::step::{Owned, Step};
use checks::{is_there, stands_at, supports_at};
use conditions::is_only;
use fusion::Fusion;
use net::{Net, NetFault, SHEET_SIZE};
use rewrites::{remove_place, write_marks};
use theory::Refusal;

// Fires a transition ahead of time, or refuses to. The last question of the table, whether all numbers are within their limits afterwards,
// is answered by the marks: on a tidy sheet only a mark may be past them.
fn fire(net: &mut Net<'_>, ahead: Ahead) -> Result<(), Refusal>
    requires { length net.old.sheet.now ≡ 12352 }
    ensures answer { result ≡ judged (table (view net.old) (fire_ahead ahead.t ahead.k)) tt }
    ensures taken { IfOk result (λ _. view net.new ≡ next (view net.old) (fire_ahead ahead.t ahead.k)) }
    ensures same { IfErr result (λ _. view net.new ≡ view net.old) }
    ensures lent { SameSheet net.new net.old }
{
    if !is_there(net, ahead.t) {
        return Err(Refusal::NoTransition);
    }
    if ahead.k == 0 {
        return Err(Refusal::Nothing);
    }
    let Some(p) = ahead.source(net) else {
        return Err(Refusal::Arcs);
    };
    if !is_only(net, ahead.t, p) {
        return Err(Refusal::Arcs);
    }
    if !ahead.suffices_at(net, p) {
        return Err(Refusal::Marks);
    }
    let Some(marks) = ahead.marks(net) else {
        return Err(Refusal::PastLimit);
    };
    write_marks(net, &marks).unwrap();
    Ok(())
}

// The questions of the step that fuses two places.
fn check_fusion(net: &Net<'_>, fusion: Fusion) -> Result<(), Refusal>
    ensures { result ≡ judged (table (view net.now) (fuse_places fusion.p fusion.q fusion.a fusion.b)) tt }
{
    if !is_there(net, fusion.a) || !is_there(net, fusion.b) {
        return Err(Refusal::NoTransition);
    }
    if !stands_at(net, fusion.p) || !stands_at(net, fusion.q) {
        return Err(Refusal::NoPlace);
    }
    if fusion.p == fusion.q {
        return Err(Refusal::NotDistinct);
    }
    if supports_at(net, fusion.p) || supports_at(net, fusion.q) {
        return Err(Refusal::Support);
    }
    if !fusion.carries_both_ways(net) {
        return Err(Refusal::Arcs);
    }
    if !fusion.fits(net) {
        return Err(Refusal::PastLimit);
    }
    Ok(())
}

// Adds the numbers of q to those of p in the marks and the first n rows of a sheet of the right size. The parts are numbered:
// `as_chunks_mut::<64>` and `chunks_exact_mut` were tried, and their contracts do not say what the sheet ends as. To pass the shape in
// place of n was tried too, and the goals of `fuse_net` stayed open.
fn add_parts(sheet: &mut [u32; SHEET_SIZE], n: usize, p: usize, q: usize)
    requires places { (n ≤ 96) × ((p < 64) × ((q < 64) × (p ≢ q))) }
    requires sums { SumsFit sheet.old n p q }
    ensures { Added sheet.old sheet.new (1 + 2 * n) p q }
{
    for part in 0..1 + 2 * n {
        sheet[64 * part + p] += sheet[64 * part + q];
    }
}

// The same on a sheet that has the right size; another one stays as it is.
fn add_place(sheet: &mut [u32], n: usize, p: usize, q: usize) -> Result<(), NetFault>
    requires places { (n ≤ 96) × ((p < 64) × ((q < 64) × (p ≢ q))) }
    requires sums { SumsFit sheet.old n p q }
    ensures answer { result ≡ measured sheet.old }
    ensures added { IfOk result (λ _. Added sheet.old sheet.new (1 + 2 * n) p q) }
    ensures same { IfErr result (λ _. sheet.new ≡ sheet.old) }
{
    let sheet = sheet.as_mut_array().ok_or(NetFault::WrongSize)?;
    add_parts(sheet, n, p, q);
    Ok(())
}

// Fuses place q with p, where both stand.
fn fuse_net(net: &mut Net<'_>, fusion: Fusion) -> Result<(), NetFault>
    requires places { (stands (view net.old) fusion.p ≡ true) × ((stands (view net.old) fusion.q ≡ true) × ((fusion.p == fusion.q) ≡ false)) }
    requires sums { fusion_fits? (view net.old) fusion.p fusion.q ≡ true }
    ensures exact { Leaves result (view net.new) (view net.old) (fusing fusion.p fusion.q (view net.old)) }
    ensures lent { SameSheet net.new net.old }
{
    let n = net.shape.transitions;
    add_place(net.sheet, n, usize::from(fusion.p), usize::from(fusion.q))?;
    remove_place(net, usize::from(fusion.q))
}

// Fuses two places, or refuses to.
fn fuse(net: &mut Net<'_>, fusion: Fusion) -> Result<(), Refusal>
    requires { length net.old.sheet.now ≡ 12352 }
    ensures answer { result ≡ judged (table (view net.old) (fuse_places fusion.p fusion.q fusion.a fusion.b)) tt }
    ensures taken { IfOk result (λ _. view net.new ≡ next (view net.old) (fuse_places fusion.p fusion.q fusion.a fusion.b)) }
    ensures same { IfErr result (λ _. view net.new ≡ view net.old) }
    ensures lent { SameSheet net.new net.old }
{
    check_fusion(net, fusion)?;
    fuse_net(net, fusion).unwrap();
    Ok(())
}

// The first bytes that this book owns.
const FIRST: u8 = 0x2d;

const OWNED: Owned = Owned {
    first: FIRST,
    last: 0x2e,
};

// Takes a step of this book, or refuses it. It asks that the step is the book's own, since one type of steps serves all books.
fn move_by(net: &mut Net<'_>, step: Step<'_>) -> Result<(), Refusal>
    requires size { length net.old.sheet.now ≡ 12352 }
    requires own { owns move_width (plain step) ≡ true }
    ensures answer { result ≡ judged (table (view net.old) (plain step.entry)) tt }
    ensures taken { IfOk result (λ _. view net.new ≡ next (view net.old) (plain step.entry)) }
    ensures same { IfErr result (λ _. view net.new ≡ view net.old) }
    ensures lent { SameSheet net.new net.old }
{
    match step {
        Step::FireAhead(t, k) => fire(net, Ahead { t, k }),
        Step::FusePlaces(p, q, a, b) => fuse(net, Fusion { p, q, a, b }),
        _ => unreachable!(),
    }
}

// The fourth house book.
// It implements `Book` itself: one impl for all four would need a public trait whose calls ask something of their caller, which no public
// call here does.
#[derive(Clone, Copy, Debug, PartialEq, Eq)]
pub struct Moves;

// Why this book, which owns the bytes from 2D, refuses a step.
pub type MoveFault = BookFault<Refusal, FIRST>;

impl Book for Moves {
    type Fault = MoveFault;

    ghost width_of = { move_width };

    ghost taken = { move_taken };

    ghost keeps = { house_keeps from_net from_bytes from_step move_width step_of };

    ghost narrow = { narrow 0x2d 0x2e };

    ghost refuses = { house_refuses from_net from_bytes from_step move_width step_of (book_number refusal_number) (λ e. refl) };

    fn width(&self, first: u8) -> Option<u8> {
        OWNED.width(first)
    }

    fn take(&self, net: &mut Net<'_>, step: &[u8]) -> Result<(), MoveFault> {
        net.check_size()?;
        let step = OWNED.step(step)?;
        move_by(net, step)?;
        Ok(())
    }
}
