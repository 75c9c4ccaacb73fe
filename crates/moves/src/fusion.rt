// Fusions of two places.
ghost use Rattle.std.specs.Prelude.{◌≡◌, ◌+◌, ◌&&◌, nat_le};
ghost use Rattle.net.specs.Sheets.{most_weight};
ghost use Rattle.net.specs.States.{view, take, put};
ghost use Rattle.theory.specs.Steps.{in_limits?};
ghost use Rattle.theory.specs.Tests.{every_transition, carries?, fusion_fits?};

use crate::conditions::carries;
use checks::{in_limits, mark_of, put_of, take_of, transitions};
use net::{MOST_WEIGHT, Net};

// The most tokens of a start mark.
const MOST_MARK: u64 = 4_294_967_295;

// The fusion of place q with p, where transition a carries from p to q, and b from q to p.
#[derive(Clone, Copy, Debug, PartialEq, Eq)]
pub(crate) struct Fusion {
    pub p: u8,
    pub q: u8,
    pub a: u8,
    pub b: u8,
}

impl Fusion {
    // Does a carry from p to q, and b from q to p?
    pub(crate) fn carries_both_ways(self, net: &Net<'_>) -> bool
        ensures { result ≡ (carries? (view net.now) self.a self.p self.q && carries? (view net.now) self.b self.q self.p) }
    {
        carries(net, self.a, self.p, self.q) && carries(net, self.b, self.q, self.p)
    }

    // Are the weights of every transition at p and q together within their limit?
    #[tactic(auto, unfolding(theory::specs::Tests::every))]
    fn weights_fit(self, net: &Net<'_>) -> bool
        ensures { result ≡ every_transition (view net.now) (λ t. nat_le (take (view net.now) t self.p + take (view net.now) t self.q) most_weight && nat_le (put (view net.now) t self.p + put (view net.now) t self.q) most_weight) }
    {
        let most = u64::from(MOST_WEIGHT);
        transitions(net).all(|t| {
            u64::from(take_of(net, t, self.p)) + u64::from(take_of(net, t, self.q)) <= most
                && u64::from(put_of(net, t, self.p)) + u64::from(put_of(net, t, self.q)) <= most
        })
    }

    // Are all numbers within their limits before the fusion, and the sums of the two places?
    pub(crate) fn fits(self, net: &Net<'_>) -> bool
        ensures { result ≡ (in_limits? (view net.now) && fusion_fits? (view net.now) self.p self.q) }
    {
        in_limits(net)
            && u64::from(mark_of(net, self.p)) + u64::from(mark_of(net, self.q)) <= MOST_MARK
            && self.weights_fit(net)
    }
}
