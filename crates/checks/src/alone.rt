// What a transition leaves untouched, on one side.
ghost use Rattle.std.specs.Prelude.{◌≡◌, ◌≤◌, ◌==◌, not, nat_eq, slice_index};
ghost use Rattle.net.specs.States.{view};
ghost use Rattle.checks.specs.Alone.{touches_only?, spares?, spares_support?, flagged};
ghost use Rattle.theory.specs.Tests.{◌⇒◌, every, every_place};

use crate::{number_in, places, weight_of, weights_of};
use net::{MOST_PLACES, Net, Side, flag_at};

// The loops over whole rows run to their end, since the compiler then takes several places at once. On a sheet of another size a row may
// be there in part: there the places are asked one by one.

// The places that are asked first: where one of them decides, the rest of a row is not read.
const FRONT: u8 = 4;

// Is no number of the row but that at p other than 0?
fn holds_only(row: &[u32; MOST_PLACES], p: u8) -> bool
    ensures { result ≡ every_place (λ q. not (q == p) ⇒ nat_eq (slice_index row.now q) 0) }
{
    let mut all = true;
    for q in places() {
        all &= (number_in(row, q) == 0) | (q == p);
    }
    all
}

// Is no number of the row at one of the first flagged places other than 0? It is asked of few places, and then of all.
fn holds_none(row: &[u32; MOST_PLACES], flags: &[bool; MOST_PLACES], most: u8) -> bool
    requires { most ≤ 64 }
    ensures { result ≡ every most (λ q. flagged flags.now q ⇒ nat_eq (slice_index row.now q) 0) }
{
    let mut all = true;
    for q in 0..most {
        all &= (number_in(row, q) == 0) | !flag_at(flags, usize::from(q));
    }
    all
}

// Does t touch no place but p on this side?
#[tactic(auto, unfolding(theory::specs::Tests::every))]
pub fn touches_only(net: &Net<'_>, side: Side, t: u8, p: u8) -> bool
    ensures { result ≡ touches_only? side (view net.now) t p }
{
    if net.check_size().is_ok() {
        return holds_only(weights_of(net, side, t), p);
    }
    places().all(|q| weight_of(net, side, t, q) == 0 || q == p)
}

// Does t touch no flagged place on this side? Inlined, so that a loop over transitions reads the flags once.
#[inline(always)]
#[tactic(auto, unfolding(theory::specs::Tests::every))]
pub fn spares(net: &Net<'_>, side: Side, t: u8, flags: &[bool; MOST_PLACES]) -> bool
    ensures { result ≡ spares? side (view net.now) (flagged flags.now) t }
{
    if net.check_size().is_ok() {
        let row = weights_of(net, side, t);
        return holds_none(row, flags, FRONT) && holds_none(row, flags, places().end);
    }
    places().all(|q| weight_of(net, side, t, q) == 0 || !flag_at(flags, usize::from(q)))
}

// Does t touch no place of the support on this side?
pub fn spares_support(net: &Net<'_>, side: Side, t: u8) -> bool
    ensures { result ≡ spares_support? side (view net.now) t }
{
    spares(net, side, t, &net.shape.support)
}
