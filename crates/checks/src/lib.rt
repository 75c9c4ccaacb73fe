// Reads of a net, and tests of its places and transitions, for the rules of books. All are total: they answer on every net.
#![tactic(auto)]

ghost use Rattle.std.specs.Prelude.{◌≡◌, ℕ, ◌<◌, ◌≤◌, not, slice_index};
ghost use Rattle.net.specs.Sheets.{part};
ghost use Rattle.net.specs.States.{view, stands, in_support, mark, take, put};
ghost use Rattle.checks.specs.Alone.{weight, flagged};
ghost use Rattle.theory.specs.Nets.{asks_reach, asks_standstill};
ghost use Rattle.theory.specs.Steps.{there};
ghost use Rattle.theory.specs.Tests.{member, outside};

mod alone;
mod limits;
mod neighbours;
mod nodes;
mod rows;

pub use alone::{spares, spares_support, touches_only};
pub use limits::{in_limits, rest_fits, rows_fit};
pub use neighbours::{OnlyConsumer, Source, Touches};
use net::{MOST_PLACES, Net, Question, Side, flag_at};
pub use nodes::{
    Nodes, Place, Test, Transition, count, every, first, flags, places, some, transitions,
};
pub use rows::{marks_of, number_in, weights_of};
use std::array;

// The number of a place in the part of the sheet that begins at `from`; 0 past the last place and past the end of the sheet. The
// bound only keeps the sum small. Whether the part is there to its end is asked first, since a loop over the places asks it only once.
fn number_of(net: &Net<'_>, from: usize, p: u8) -> u32
    requires { from ≤ 65536 }
    ensures { result ≡ part (view net.now).sheet from p }
{
    let p = usize::from(p);
    if p >= MOST_PLACES {
        return 0;
    }
    if from + MOST_PLACES <= net.sheet.len() {
        return net.sheet[from + p];
    }
    net.sheet.get(from + p).copied().unwrap_or(0)
}

// The start mark of a place.
pub fn mark_of(net: &Net<'_>, p: u8) -> u32
    ensures { result ≡ mark (view net.now) p }
{
    number_of(net, 0, p)
}

// The weight of a transition at a place, on one side.
pub fn weight_of(net: &Net<'_>, side: Side, t: u8, p: u8) -> u32
    ensures { result ≡ weight side (view net.now) t p }
{
    number_of(net, side.base(t), p)
}

// What a transition takes from a place.
pub fn take_of(net: &Net<'_>, t: u8, p: u8) -> u32
    ensures { result ≡ take (view net.now) t p }
{
    weight_of(net, Side::Takes, t, p)
}

// What a transition puts into a place.
pub fn put_of(net: &Net<'_>, t: u8, p: u8) -> u32
    ensures { result ≡ put (view net.now) t p }
{
    weight_of(net, Side::Puts, t, p)
}

// Does the place stand? This and the next are each one line over its own list; what they share is `flag_at` of `net`.
pub fn stands_at(net: &Net<'_>, p: u8) -> bool
    ensures { result ≡ stands (view net.now) p }
{
    flag_at(&net.shape.standing, usize::from(p))
}

// Is the place in the support?
pub fn supports_at(net: &Net<'_>, p: u8) -> bool
    ensures { result ≡ in_support (view net.now) p }
{
    flag_at(&net.shape.support, usize::from(p))
}

// Does the transition stand?
pub fn is_there(net: &Net<'_>, t: u8) -> bool
    ensures { result ≡ there (view net.now) t }
{
    usize::from(t) < net.shape.transitions
}

// Is the question of reach open?
pub fn asks_reach(net: &Net<'_>) -> bool
    ensures { result ≡ asks_reach (view net.now).question }
{
    net.shape.question != Question::Standstill
}

// Is reach the only open question?
pub fn is_reach_only(net: &Net<'_>) -> bool
    ensures { result ≡ not (asks_standstill (view net.now).question) }
{
    net.shape.question == Question::Reach
}

// Is the place in the set? Place 8 × i + j is, when bit j of byte i is 1.
pub fn is_member(set: &[u8; 8], p: u8) -> bool
    ensures { result ≡ member set.now p }
{
    set.get(usize::from(p / 8))
        .is_some_and(|byte| (byte >> (p % 8)) % 2 == 1)
}

// The flags of the places in a set.
pub fn flags_of(set: &[u8; 8]) -> [bool; MOST_PLACES]
    ensures { (p : ℕ) → p < 64 → flagged result p ≡ member set.now p }
{
    // No `try_from`, since the cast loses nothing: p is less than 64.
    array::from_fn(|p| is_member(set, p as u8))
}

// The flags of the places outside a set.
pub fn flags_outside(set: &[u8; 8]) -> [bool; MOST_PLACES]
    ensures { (p : ℕ) → p < 64 → flagged result p ≡ outside (member set.now) p }
{
    // No `try_from`, since the cast loses nothing: p is less than 64.
    array::from_fn(|p| !is_member(set, p as u8))
}
