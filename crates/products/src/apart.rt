// The transitions that an agglomeration leaves as they are.
ghost use Rattle.std.specs.Prelude.{◌≡◌, ℕ, Bool};
ghost use Rattle.products.specs.Products.{apart?};

use checks::{Test, Transition, put_of, take_of};
use net::Net;

// Does the transition leave p alone?
#[derive(Clone, Copy, Debug, PartialEq, Eq)]
pub struct Apart {
    pub p: u8,
}

impl Test for Apart {
    type Of = Transition;

    ghost holds = { λ x s t. apart? s x.p t };

    fn test(&self, net: &Net<'_>, t: u8) -> bool {
        put_of(net, t, self.p) == 0 && take_of(net, t, self.p) == 0
    }
}
