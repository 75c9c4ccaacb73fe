// Whether the weights of products are within their limit. Nothing is written, and the sheet may have any size.
ghost use Rattle.std.specs.Prelude.{◌≡◌, ◌&&◌, if◌then◌else◌, nat_eq, nat_le};
ghost use Rattle.net.specs.Sheets.{most_weight};
ghost use Rattle.net.specs.States.{view};
ghost use Rattle.theory.specs.Tests.{◌⇒◌, every_transition, feeder?, consumer?, products_fit?};
ghost use Rattle.products.specs.Products.{product_row, pair_row, weight_of, row_in_limits?};

use crate::pairs::{Kind, Pair};
use checks::{Place, Test, every, put_of, take_of, transitions};
use net::{MOST_WEIGHT, Net, Side};

// A weight at q, or 0 where q is p.
fn beside(p: u8, q: u8, weight: u32) -> u32
    ensures { result ≡ (if nat_eq q p then 0 else weight) }
{
    if q == p { 0 } else { weight }
}

impl Pair {
    // The weight of the product at q, on one side.
    fn weight(self, net: &Net<'_>, side: Side, q: u8) -> u64
        ensures { result ≡ weight_of (pair_row self (view net.now)) side q }
    {
        let Pair { kind, p, h, f } = self;
        match (side, kind) {
            (Side::Takes, Kind::Post) => u64::from(take_of(net, h, q)),
            (Side::Takes, Kind::Pre) => {
                u64::from(take_of(net, h, q)) + u64::from(beside(p, q, take_of(net, f, q)))
            }
            (Side::Puts, Kind::Post) => {
                u64::from(beside(p, q, put_of(net, h, q)))
                    + u64::from(self.factor(net)) * u64::from(put_of(net, f, q))
            }
            (Side::Puts, Kind::Pre) => u64::from(put_of(net, f, q)),
        }
    }
}

// Are the weights of the product at the place within the limit? Asked of every place, it is what `merge` asks of each product.
impl Test for Pair {
    type Of = Place;

    ghost holds = { λ x s q. nat_le ((pair_row x s).takes q) most_weight && nat_le ((pair_row x s).puts q) most_weight };

    fn test(&self, net: &Net<'_>, q: u8) -> bool {
        self.weight(net, Side::Takes, q) <= u64::from(MOST_WEIGHT)
            && self.weight(net, Side::Puts, q) <= u64::from(MOST_WEIGHT)
    }
}

impl Pair {
    // Is the product within the limit, if f is a consumer of p?
    fn consumer_fits(self, net: &Net<'_>) -> bool
        ensures { result ≡ (consumer? (view net.now) self.p self.f ⇒ row_in_limits? (pair_row self (view net.now))) }
    {
        take_of(net, self.f, self.p) == 0 || every(net, &self)
    }
}

// Are the products of h within the limit?
#[tactic(auto, unfolding(theory::specs::Tests::every))]
fn all_fit(net: &Net<'_>, kind: Kind, p: u8, h: u8) -> bool
    ensures { result ≡ every_transition (view net.now) (λ f. consumer? (view net.now) p f ⇒ row_in_limits? (product_row kind (view net.now) p h f)) }
{
    transitions(net).all(|f| Pair { kind, p, h, f }.consumer_fits(net))
}

// The same, if h is a feeder of p.
fn feeder_fits(net: &Net<'_>, kind: Kind, p: u8, h: u8) -> bool
    ensures { result ≡ (feeder? (view net.now) p h ⇒ every_transition (view net.now) (λ f. consumer? (view net.now) p f ⇒ row_in_limits? (product_row kind (view net.now) p h f))) }
{
    put_of(net, h, p) == 0 || all_fit(net, kind, p, h)
}

// Are the weights of all products of the feeders and the consumers of p within the limit?
#[tactic(auto, unfolding(theory::specs::Tests::every))]
pub fn products_fit(net: &Net<'_>, kind: Kind, p: u8) -> bool
    ensures { result ≡ products_fit? (view net.now) p (product_row kind (view net.now) p) }
{
    transitions(net).all(|h| feeder_fits(net, kind, p, h))
}
