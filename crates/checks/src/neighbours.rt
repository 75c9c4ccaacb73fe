// Tests of who takes from a place and who puts into it.
ghost use Rattle.std.specs.Prelude.{◌≡◌, ℕ, Bool, nat_eq, nat_lt};
ghost use Rattle.net.specs.States.{take};
ghost use Rattle.checks.specs.Alone.{weight};
ghost use Rattle.theory.specs.Tests.{◌⇒◌, consumer?};

use crate::{Place, Test, Transition, take_of, weight_of};
use net::{Net, Side};

// Does the transition touch p on this side? On that of the puts it feeds p, on that of the takes it consumes from it.
#[derive(Clone, Copy, Debug, PartialEq, Eq)]
pub struct Touches {
    pub side: Side,
    pub p: u8,
}

impl Test for Touches {
    type Of = Transition;

    ghost holds = { λ x s t. nat_lt 0 (weight x.side s t x.p) };

    fn test(&self, net: &Net<'_>, t: u8) -> bool {
        weight_of(net, self.side, t, self.p) > 0
    }
}

// If the transition takes from p: is it t?
#[derive(Clone, Copy, Debug, PartialEq, Eq)]
pub struct OnlyConsumer {
    pub p: u8,
    pub t: u8,
}

impl Test for OnlyConsumer {
    type Of = Transition;

    ghost holds = { λ x s u. consumer? s x.p u ⇒ nat_eq u x.t };

    fn test(&self, net: &Net<'_>, u: u8) -> bool {
        take_of(net, u, self.p) == 0 || u == self.t
    }
}

// Does t take from the place?
#[derive(Clone, Copy, Debug, PartialEq, Eq)]
pub struct Source {
    pub t: u8,
}

impl Test for Source {
    type Of = Place;

    ghost holds = { λ x s p. nat_lt 0 (take s x.t p) };

    fn test(&self, net: &Net<'_>, p: u8) -> bool {
        take_of(net, self.t, p) != 0
    }
}
