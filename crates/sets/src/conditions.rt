// The conditions of the second house book's steps, each by the name of its definition. All use the set out of the step's own bytes.
ghost use Rattle.std.specs.Prelude.{◌≡◌, ℕ, Bool, not};
ghost use Rattle.net.specs.States.{view};
ghost use Rattle.sets.specs.Sets.{touches?};
ghost use Rattle.checks.specs.Alone.{flagged};
ghost use Rattle.theory.specs.Tests.{◌⇒◌, every_transition, member, takes_from?, siphon?, dry?, falls?, sufficient?, holds_support?, members_stand?, has_member?};

use checks::{
    Test, Transition, flags_of, flags_outside, is_member, mark_of, places, put_of, spares,
    stands_at, supports_at, take_of, transitions,
};
use net::{MOST_PLACES, Net, Side};

// A set is asked of many transitions, so that its flags are made once.

// Does t touch a flagged place on this side? Inlined, as `spares` is.
#[inline(always)]
#[tactic(auto, using(crate::proofs::Flagging::not_spared))]
fn touches(net: &Net<'_>, side: Side, flags: &[bool; MOST_PLACES], t: u8) -> bool
    ensures { result ≡ touches? side (view net.now) (flagged flags.now) t }
{
    !spares(net, side, t, flags)
}

// Do all places of the set stand?
#[tactic(auto, unfolding(theory::specs::Tests::every))]
pub(crate) fn members_stand(net: &Net<'_>, set: &[u8; 8]) -> bool
    ensures { result ≡ members_stand? (view net.now) (member set.now) }
{
    places().all(|p| stands_at(net, p) || !is_member(set, p))
}

// Is there a place in the set?
#[tactic(auto, unfolding(theory::specs::Tests::some))]
pub(crate) fn has_member(set: &[u8; 8]) -> bool
    ensures { result ≡ has_member? (member set.now) }
{
    places().any(|p| is_member(set, p))
}

// Does every transition that puts into a flagged place take from one?
#[tactic(auto, unfolding(theory::specs::Tests::every))]
fn is_flagged_siphon(net: &Net<'_>, flags: &[bool; MOST_PLACES]) -> bool
    ensures { result ≡ siphon? (view net.now) (flagged flags.now) }
{
    transitions(net).all(|t| !touches(net, Side::Puts, flags, t)
        || touches(net, Side::Takes, flags, t))
}

// Does every transition that puts into the set take from it?
pub(crate) fn is_siphon(net: &Net<'_>, set: &[u8; 8]) -> bool
    ensures { result ≡ siphon? (view net.now) (member set.now) }
{
    is_flagged_siphon(net, &flags_of(set))
}

// Is the mark of each place of the set 0?
#[tactic(auto, unfolding(theory::specs::Tests::every))]
pub(crate) fn is_dry(net: &Net<'_>, set: &[u8; 8]) -> bool
    ensures { result ≡ dry? (view net.now) (member set.now) }
{
    places().all(|p| mark_of(net, p) == 0 || !is_member(set, p))
}

// Is every place of the support in the set?
#[tactic(auto, unfolding(theory::specs::Tests::every))]
pub(crate) fn holds_support(net: &Net<'_>, set: &[u8; 8]) -> bool
    ensures { result ≡ holds_support? (view net.now) (member set.now) }
{
    places().all(|p| !supports_at(net, p) || is_member(set, p))
}

// Has t no positive effect in the set, and none at all on the support?
#[tactic(auto, unfolding(theory::specs::Tests::every))]
fn falls(net: &Net<'_>, set: &[u8; 8], t: u8) -> bool
    ensures { result ≡ falls? (view net.now) (member set.now) t }
{
    places().all(|p| {
        let taken = take_of(net, t, p);
        let given = put_of(net, t, p);
        (given <= taken || !is_member(set, p)) && (given == taken || !supports_at(net, p))
    })
}

// Does every transition that takes from a flagged place fall?
#[tactic(auto, unfolding(theory::specs::Tests::every))]
fn fall_outside(net: &Net<'_>, set: &[u8; 8], outside: &[bool; MOST_PLACES]) -> bool
    ensures { result ≡ every_transition (view net.now) (λ t. takes_from? (view net.now) (flagged outside.now) t ⇒ falls? (view net.now) (member set.now) t) }
{
    transitions(net).all(|t| !touches(net, Side::Takes, outside, t) || falls(net, set, t))
}

// Does every transition that takes from outside the set fall?
pub(crate) fn is_sufficient(net: &Net<'_>, set: &[u8; 8]) -> bool
    ensures { result ≡ sufficient? (view net.now) (member set.now) }
{
    fall_outside(net, set, &flags_outside(set))
}

// Does the transition take nothing from the flagged places? It is a test like others, so that one rewrite serves all: its contract names
// what a test means, where of a closure it could only say what its calls answered.
#[derive(Clone, Copy, Debug, PartialEq, Eq)]
pub(crate) struct TakesNone<'a> {
    pub flags: &'a [bool; MOST_PLACES],
}

impl Test for TakesNone<'_> {
    type Of = Transition;

    ghost holds = { λ x s t. not (takes_from? s (flagged x.flags.now) t) };

    fn test(&self, net: &Net<'_>, t: u8) -> bool {
        !touches(net, Side::Takes, self.flags, t)
    }
}
