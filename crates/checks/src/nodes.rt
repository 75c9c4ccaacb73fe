// The nodes of a net: its places and its transitions, each kind numbered from 0, and tests of one node.
ghost use Rattle.std.specs.Prelude.{◌≡◌, ℕ, ◌<◌, ◌≤◌, Bool, false, ◌&&◌, length, nat_lt, slice_index_or};
ghost use Rattle.std.proofs.Common.{arith};
ghost use Rattle.net.specs.declared.net.Net.{Net};
ghost use Rattle.net.specs.States.{State, view};
ghost use Rattle.theory.specs.Tests.{every, some, lowest, those};

use net::{MOST_PLACES, MOST_TRANSITIONS, Net};
use std::ops::Range;

// The numbers of the places.
pub fn places() -> Range<u8>
    ensures { (result.start ≡ 0) × (result.end ≡ 64) }
{
    // No `try_from`, since the cast loses nothing: there are 64 places. The end is a number of 8 bits, as places are told.
    0..MOST_PLACES as u8
}

// The numbers of the transitions.
pub fn transitions(net: &Net<'_>) -> Range<u8>
    ensures { (result.start ≡ 0) × (result.end ≡ (view net.now).transitions) }
{
    // No `try_from`, since the cast loses nothing: a net has at most 96 transitions. The minimum is their count itself; with it the
    // compiler knows too that their rows are within the sheet.
    0..net.shape.transitions.min(MOST_TRANSITIONS) as u8
}

// A kind of nodes.
pub trait Nodes {
    ghost count: { State → ℕ };

    // The numbers of the nodes of this kind.
    fn of(net: &Net<'_>) -> Range<u8>
        ensures { (result.start ≡ 0) × (result.end ≡ count (view net.now)) };

    // There are at most 96 of them.
    ghost few: { (net : Net) → count (view net) ≤ 96 };
}

// The places, and the transitions.
pub enum Place {}

pub enum Transition {}

impl Nodes for Place {
    ghost count = { λ _. 64 };

    ghost few = { λ _. omega arith };

    fn of(_net: &Net<'_>) -> Range<u8> {
        places()
    }
}

impl Nodes for Transition {
    ghost count = { λ s. s.transitions };

    ghost few = { λ net. net.shape.few };

    fn of(net: &Net<'_>) -> Range<u8> {
        transitions(net)
    }
}

// A test of one node. It is a trait and not a closure, since a contract names what a test means: of a closure it could only say that
// it was called.
pub trait Test {
    type Of: Nodes;

    ghost holds: { Self → State → ℕ → Bool };

    fn test(&self, net: &Net<'_>, i: u8) -> bool
        ensures { result ≡ holds self.now (view net.now) i };
}

// Does the test hold of every node?
#[tactic(auto, unfolding(theory::specs::Tests::every))]
pub fn every<T: Test>(net: &Net<'_>, test: &T) -> bool
    ensures { result ≡ every (T.Of.count (view net.now)) (T.Test.holds test.now (view net.now)) }
{
    T::Of::of(net).all(|i| test.test(net, i))
}

// Does the test hold of some node?
#[tactic(auto, unfolding(theory::specs::Tests::some))]
pub fn some<T: Test>(net: &Net<'_>, test: &T) -> bool
    ensures { result ≡ some (T.Of.count (view net.now)) (T.Test.holds test.now (view net.now)) }
{
    T::Of::of(net).any(|i| test.test(net, i))
}

// The first node of which the test holds.
#[tactic(auto, unfolding(theory::specs::Tests::lowest))]
pub fn first<T: Test>(net: &Net<'_>, test: &T) -> Option<u8>
    ensures { result ≡ lowest (T.Of.count (view net.now)) (T.Test.holds test.now (view net.now)) }
{
    T::Of::of(net).find(|i| test.test(net, *i))
}

// How many nodes there are of which the test holds.
pub fn count<T: Test>(net: &Net<'_>, test: &T) -> usize
    ensures count { result ≡ length (those (T.Test.holds test.now (view net.now)) (T.Of.count (view net.now))) }
    ensures few { result ≤ 96 }
{
    T::Of::of(net).filter(|i| test.test(net, *i)).count()
}

// The flags of the nodes: true for those of which the test holds, false past the last. They are as many as there may be transitions,
// since nothing is allocated.
pub fn flags<T: Test>(net: &Net<'_>, test: &T) -> [bool; MOST_TRANSITIONS]
    ensures { (i : ℕ) → slice_index_or result i false ≡ (nat_lt i (T.Of.count (view net.now)) && T.Test.holds test.now (view net.now) i) }
{
    let mut flags = [false; MOST_TRANSITIONS];
    for i in T::Of::of(net) {
        flags[usize::from(i)] = test.test(net, i);
    }
    flags
}
