// The new rows of an agglomeration: the products of the feeders and the consumers of a place.
#![tactic(auto)]

ghost use Rattle.std.specs.Prelude.{◌≡◌, ℕ, ◌+◌, ◌*◌, ◌<◌, ◌≤◌, true, false, List, [], ◌++◌, map, length, MatchOption, slice_set};
ghost use Rattle.net.specs.Views.{SameSheet};
ghost use Rattle.net.specs.Looks.{Leaves};
ghost use Rattle.net.specs.Refusals.{judged};
ghost use Rattle.net.specs.Sheets.{Row};
ghost use Rattle.net.specs.States.{view, Answered};
ghost use Rattle.theory.specs.Rewrites.{kept_rows, crossed, merging};
ghost use Rattle.theory.specs.Tests.{those, feeders, consumers, products_fit?};
ghost use Rattle.products.specs.declared.pairs.Kind.{Kind};
ghost use Rattle.products.specs.Products.{product_row, numbers, consumers_fit?, apart?, replacing, room_table, Roomy, Tallied, merged};
ghost use Rattle.arrayvec.specs.ArrayVec.{array_vec_len};

mod apart;
mod counts;
mod limits;
mod pairs;
mod tally;
mod weights;

pub use apart::Apart;
use arrayvec::ArrayVec;
pub use counts::{Counts, count_by_place};
pub use limits::products_fit;
use net::{MOST_PLACES, MOST_TRANSITIONS, Net, NetFault, ROW_SIZE};
pub use pairs::{Kind, Pair};
use rewrites::{append_rows, keep_where};
use tally::{Tally, tally_of};

// The most products of an agglomeration.
pub const MOST_PRODUCTS: usize = 32;

// The rows of at most N products.
type Rows<const N: usize> = ArrayVec<[u16; ROW_SIZE], N>;

// Appends the products of feeder h and each consumer of p, unless one is past the limit. Each is pushed, since a push with room cannot
// fail: `extend` may refuse for want of room.
fn push_products<const N: usize>(
    net: &Net<'_>,
    kind: Kind,
    p: u8,
    h: u8,
    consuming: &[u8],
    rows: &mut Rows<N>,
) -> Option<()>
    requires { (length net.now.sheet.now ≡ 12352) × (h < 96) × (consuming.now ≡ consumers (view net.now) p) × (array_vec_len rows.old + length (consumers (view net.now) p) ≤ N) × (N ≤ 32) }
    ensures { MatchOption result (consumers_fit? kind (view net.now) p h (consumers (view net.now) p) ≡ false) (λ _. (consumers_fit? kind (view net.now) p h (consumers (view net.now) p) ≡ true) × (rows.new.items ≡ rows.old.items ++ map (λ f. numbers (product_row kind (view net.now) p h f)) (consumers (view net.now) p))) }
{
    for i in 0..consuming.len() {
        let f = consuming[i];
        rows.push(Pair { kind, p, h, f }.row(net)?);
    }
    Some(())
}

// Appends the products of all feeders and consumers of p, unless one is past the limit.
fn push_all<const N: usize>(
    net: &Net<'_>,
    kind: Kind,
    p: u8,
    feeding: &[u8],
    consuming: &[u8],
    rows: &mut Rows<N>,
) -> Option<()>
    requires { (length net.now.sheet.now ≡ 12352) × (feeding.now ≡ feeders (view net.now) p) × (consuming.now ≡ consumers (view net.now) p) × (length (feeders (view net.now) p) * length (consumers (view net.now) p) ≤ N) × (N ≤ 32) × (rows.old.items ≡ []) }
    ensures { MatchOption result (products_fit? (view net.now) p (product_row kind (view net.now) p) ≡ false) (λ _. (products_fit? (view net.now) p (product_row kind (view net.now) p) ≡ true) × (rows.new.items ≡ map numbers (crossed (product_row kind (view net.now) p) (feeders (view net.now) p) (consumers (view net.now) p)))) }
{
    for i in 0..feeding.len() {
        push_products(net, kind, p, feeding[i], consuming, rows)?;
    }
    Some(())
}

// Is there room for the products of the feeders and consumers of p, of which this is the tally? The third house book asks this before,
// with refusals of its own; it is asked again here, since no public call relies on its caller.
fn check_room(net: &Net<'_>, p: u8, tally: &Tally) -> Result<(), NetFault>
    requires { Tallied tally.now p (view net.now) }
    ensures { (kind : Kind) → result ≡ judged (room_table kind p (view net.now)) tt }
{
    net.check_size()?;
    let pairs = tally.feeders.len() * tally.consumers.len();
    if pairs > MOST_PRODUCTS || tally.rest + pairs > MOST_TRANSITIONS {
        return Err(NetFault::TooManyTransitions);
    }
    Ok(())
}

// The flags of the places, false at p. This is not `remove_place`: no row has a number at p any more, and p need not stand. The flags
// are copied: to write one through `get_mut` inside the net was tried, and the proof's borrow rules have none for it.
#[tactic(auto, using(std::proofs::lemmas::List::set_past))]
fn flags_without(standing: &[bool; MOST_PLACES], p: u8) -> [bool; MOST_PLACES]
    ensures { result ≡ slice_set standing.now p false }
{
    let mut rest = *standing;
    let p = usize::from(p);
    if p < MOST_PLACES {
        rest[p] = false;
    }
    rest
}

// Drops the feeders and consumers of p, appends rows in their place, and lets p go.
fn replace_rows(net: &mut Net<'_>, p: u8, rows: &[[u16; ROW_SIZE]]) -> Result<(), NetFault>
    requires { length (kept_rows (apart? (view net.old) p) (view net.old)) + length rows.now ≤ 96 }
    ensures exact { (qs : List Row) → rows.now ≡ map numbers qs → Leaves result (view net.new) (view net.old) (replacing qs p (view net.old)) }
    ensures lent { SameSheet net.new net.old }
{
    keep_where(net, &Apart { p })?;
    append_rows(net, rows)?;
    net.shape.standing = flags_without(&net.shape.standing, p);
    Ok(())
}

// Replaces the feeders and consumers of p by their products, of which there are at most N, and lets p go.
fn merge_within<const N: usize>(
    net: &mut Net<'_>,
    kind: Kind,
    p: u8,
    tally: &Tally,
) -> Result<(), NetFault>
    requires { Tallied tally.now p (view net.old) × Roomy kind p (view net.old) × (length (feeders (view net.old) p) * length (consumers (view net.old) p) ≤ N) × (N ≤ 32) }
    ensures exact { Answered result (view net.new) (view net.old) (merged kind p (view net.old)) }
    ensures lent { SameSheet net.new net.old }
{
    let mut rows = ArrayVec::<_, N>::new();
    push_all(net, kind, p, &tally.feeders, &tally.consumers, &mut rows).ok_or(NetFault::BadWeight)?;
    replace_rows(net, p, &rows)
}

// Replaces the feeders and consumers of p by their products, and lets p go. A single product is made in a list of one row, since a list
// is cleared before it is filled.
pub fn merge(net: &mut Net<'_>, kind: Kind, p: u8) -> Result<(), NetFault>
    ensures exact { Answered result (view net.new) (view net.old) (merged kind p (view net.old)) }
    ensures lent { SameSheet net.new net.old }
{
    let tally = tally_of(net, p);
    check_room(net, p, &tally)?;
    if tally.feeders.len() * tally.consumers.len() > 1 {
        merge_within::<MOST_PRODUCTS>(net, kind, p, &tally)
    } else {
        merge_within::<1>(net, kind, p, &tally)
    }
}
