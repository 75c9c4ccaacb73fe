// Whether the numbers that a step leaves as they are keep their limits.
ghost use Rattle.std.specs.Prelude.{◌≡◌, true, not, ◌&&◌, nat_le};
ghost use Rattle.net.specs.Sheets.{mark_at, most_mark};
ghost use Rattle.net.specs.States.{view};
ghost use Rattle.theory.specs.Steps.{in_limits?};
ghost use Rattle.theory.specs.Tests.{◌⇒◌, every_place, every_transition, feeder?, consumer?, row_fits?, rows_fit?, rest_fits?};

use crate::{places, put_of, take_of, transitions};
use net::{MOST_WEIGHT, Net};

// The marks of a sheet are within their limit, as numbers of 32 bits: nothing is asked of them. It is a call, since that a number has
// 32 bits is known of a slice that is passed, and not of the sheet inside a net: a lemma of the net's sheet lacks that premise.
fn marks_fit(sheet: &[u32])
    ensures { every_place (λ p. nat_le (mark_at sheet.now p) most_mark) ≡ true }
{}

// Are the weights of the transition within their limit?
#[tactic(auto, unfolding(theory::specs::Tests::every))]
fn row_fits(net: &Net<'_>, t: u8) -> bool
    ensures { result ≡ row_fits? (view net.now) t }
{
    places().all(|p| take_of(net, t, p) <= MOST_WEIGHT && put_of(net, t, p) <= MOST_WEIGHT)
}

// Are the weights of every transition within their limit? On a sheet of the right size they are, since a net is tidy; a sheet of
// another size may hold anything.
#[tactic(auto, using(crate::proofs::Within::rows_within), unfolding(theory::specs::Tests::every))]
pub fn rows_fit(net: &Net<'_>) -> bool
    ensures { result ≡ rows_fit? (view net.now) }
{
    net.check_size().is_ok() || transitions(net).all(|t| row_fits(net, t))
}

// Are all numbers of the net within their limits?
pub fn in_limits(net: &Net<'_>) -> bool
    ensures { result ≡ in_limits? (view net.now) }
{
    marks_fit(net.sheet);
    rows_fit(net)
}

// If the transition leaves p alone: are its weights within their limit?
fn rest_row_fits(net: &Net<'_>, p: u8, t: u8) -> bool
    ensures { result ≡ ((not (feeder? (view net.now) p t) && not (consumer? (view net.now) p t)) ⇒ row_fits? (view net.now) t) }
{
    put_of(net, t, p) > 0 || take_of(net, t, p) > 0 || row_fits(net, t)
}

// Are the weights of every transition that leaves p alone within their limit?
#[tactic(auto, unfolding(theory::specs::Tests::every))]
fn rest_rows_fit(net: &Net<'_>, p: u8) -> bool
    ensures { result ≡ every_transition (view net.now) (λ t. (not (feeder? (view net.now) p t) && not (consumer? (view net.now) p t)) ⇒ row_fits? (view net.now) t) }
{
    transitions(net).all(|t| rest_row_fits(net, p, t))
}

// Are the marks, and the weights of every transition that leaves p alone, within their limits?
pub fn rest_fits(net: &Net<'_>, p: u8) -> bool
    ensures { result ≡ rest_fits? (view net.now) p }
{
    marks_fit(net.sheet);
    rest_rows_fit(net, p)
}
