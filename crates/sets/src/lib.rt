// The second house book: steps that name a set of places.
#![tactic(auto)]

ghost use Rattle.std.specs.Prelude.{◌≡◌, true, not, refl};
ghost use Rattle.net.specs.Views.{SameSheet};
ghost use Rattle.net.specs.Refusals.{judged, Passes};
ghost use Rattle.net.specs.Looks.{Leaves};
ghost use Rattle.net.specs.States.{view};
ghost use Rattle.books.specs.Faults.{book_number, from_net, from_bytes, from_step};
ghost use Rattle.books.specs.House.{plain, owns, step_of};
ghost use Rattle.sets.specs.Sets.{set_width, set_taken};
ghost use Rattle.theory.specs.Rewrites.{keeping, limiting};
ghost use Rattle.theory.specs.Steps.{refusal_number, table, next, drop_siphon, limit_to};
ghost use Rattle.theory.specs.Tests.{member, takes_from?};
ghost use Rattle.books.proofs.Housing.{house_keeps, house_refuses};
ghost use Rattle.books.proofs.Owning.{narrow};

mod conditions;

use books::Book;
use books::faults::BookFault;
use books::step::{Owned, Step};
use checks::{flags_of, flags_outside, is_reach_only};
use conditions::{
    TakesNone, has_member, holds_support, is_dry, is_siphon, is_sufficient, members_stand,
};
use net::{Net, NetFault};
use rewrites::{keep_where, limit_places};
use theory::Refusal;

// The questions of the step that drops what takes from a dry siphon.
fn check_siphon(net: &Net<'_>, set: &[u8; 8]) -> Result<(), Refusal>
    ensures { result ≡ judged (table (view net.now) (drop_siphon set.now)) tt }
{
    if !members_stand(net, set) {
        return Err(Refusal::NoPlace);
    }
    if !has_member(set) {
        return Err(Refusal::Nothing);
    }
    if !is_siphon(net, set) {
        return Err(Refusal::Arcs);
    }
    if !is_dry(net, set) {
        return Err(Refusal::Marks);
    }
    Ok(())
}

// The questions of the step that limits the net to a set.
fn check_limit(net: &Net<'_>, set: &[u8; 8]) -> Result<(), Refusal>
    ensures { result ≡ judged (table (view net.now) (limit_to set.now)) tt }
{
    if !is_reach_only(net) {
        return Err(Refusal::NotServed);
    }
    if !members_stand(net, set) {
        return Err(Refusal::NoPlace);
    }
    if !holds_support(net, set) {
        return Err(Refusal::Support);
    }
    if !is_sufficient(net, set) {
        return Err(Refusal::Arcs);
    }
    Ok(())
}

// Drops the transitions that take from a set.
fn drop_consumers(net: &mut Net<'_>, set: &[u8; 8]) -> Result<(), NetFault>
    ensures exact { Leaves result (view net.new) (view net.old) (keeping (λ t. not (takes_from? (view net.old) (member set.now) t)) (view net.old)) }
    ensures lent { SameSheet net.new net.old }
{
    let flags = flags_of(set);
    keep_where(net, &TakesNone { flags: &flags })
}

// Drops the transitions that take from outside a set, and removes the places outside it.
fn limit_net(net: &mut Net<'_>, set: &[u8; 8]) -> Result<(), NetFault>
    ensures exact { Leaves result (view net.new) (view net.old) (limiting (member set.now) (view net.old)) }
    ensures lent { SameSheet net.new net.old }
{
    let outside = flags_outside(set);
    keep_where(net, &TakesNone { flags: &outside })?;
    limit_places(net, set)
}

// The first bytes that this book owns.
const FIRST: u8 = 0x28;

const OWNED: Owned = Owned {
    first: FIRST,
    last: 0x29,
};

// The questions of a step of this book. A match here and in the rewrite: each step has operands of its own, and a closure for each would
// be made in a match. Both ask that the step is the book's own, since one type of steps serves all books.
fn check(net: &Net<'_>, step: Step<'_>) -> Result<(), Refusal>
    requires { owns set_width (plain step) ≡ true }
    ensures { result ≡ judged (table (view net.now) (plain step.entry)) tt }
{
    match step {
        Step::DropSiphon(set) => check_siphon(net, set),
        Step::LimitTo(set) => check_limit(net, set),
        _ => unreachable!(),
    }
}

// Takes a step of this book whose questions have passed.
fn rewrite(net: &mut Net<'_>, step: Step<'_>) -> Result<(), NetFault>
    requires own { owns set_width (plain step) ≡ true }
    requires passes { Passes (table (view net.old) (plain step)) }
    ensures exact { Leaves result (view net.new) (view net.old) (next (view net.old) (plain step.entry)) }
    ensures lent { SameSheet net.new net.old }
{
    match step {
        Step::DropSiphon(set) => drop_consumers(net, set),
        Step::LimitTo(set) => limit_net(net, set),
        _ => unreachable!(),
    }
}

// The second house book.
// It implements `Book` itself: one impl for all four would need a public trait whose calls ask something of their caller, which no public
// call here does.
#[derive(Clone, Copy, Debug, PartialEq, Eq)]
pub struct Sets;

// Why this book, which owns the bytes from 28, refuses a step.
pub type SetFault = BookFault<Refusal, FIRST>;

impl Book for Sets {
    type Fault = SetFault;

    ghost width_of = { set_width };

    ghost taken = { set_taken };

    ghost keeps = { house_keeps from_net from_bytes from_step set_width step_of };

    ghost narrow = { narrow 0x28 0x29 };

    ghost refuses = { house_refuses from_net from_bytes from_step set_width step_of (book_number refusal_number) (λ e. refl) };

    fn width(&self, first: u8) -> Option<u8> {
        OWNED.width(first)
    }

    fn take(&self, net: &mut Net<'_>, step: &[u8]) -> Result<(), SetFault> {
        net.check_size()?;
        let step = OWNED.step(step)?;
        check(net, step)?;
        rewrite(net, step)?;
        Ok(())
    }
}
