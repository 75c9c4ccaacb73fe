// How many transitions there are after an agglomeration.
ghost use Rattle.std.specs.Prelude.{◌≡◌, ℕ, ◌+◌, ◌*◌, ◌≤◌, length};
ghost use Rattle.net.specs.Sheets.{Row};
ghost use Rattle.net.specs.States.{view};
ghost use Rattle.theory.specs.Rewrites.{merging};
ghost use Rattle.theory.specs.Tests.{those, feeders, consumers};
ghost use Rattle.products.specs.Products.{apart?};

use checks::{put_of, take_of, transitions};
use net::Net;

// How many products there are, the feeders of the place times its consumers, and how many transitions leave the place alone.
#[derive(Clone, Copy, Debug, PartialEq, Eq)]
pub struct Counts {
    pub products: usize,
    pub rest: usize,
}

// Counts the transitions by what they do to p. Products and rest together are there after an agglomeration at p, whatever the products
// are. They are counted and not listed, since a loop that counts takes several transitions at once.
#[tactic(auto, using(crate::proofs::Crossing::few_pairs))]
pub fn count_by_place(net: &Net<'_>, p: u8) -> Counts
    ensures products { result.products ≡ length (feeders (view net.now) p) * length (consumers (view net.now) p) }
    ensures rest { result.rest ≡ length (those (apart? (view net.now) p) (view net.now).transitions) }
    ensures few { (result.products ≤ 9216) × (result.rest ≤ 96) }
    ensures after { (product : ℕ → ℕ → Row) → result.rest + length (feeders (view net.now) p) * length (consumers (view net.now) p) ≡ (merging product p (view net.now)).transitions }
{
    let mut feeders = 0;
    let mut consumers = 0;
    let mut rest = 0;
    for t in 0..transitions(net).end {
        let feeds = put_of(net, t, p) > 0;
        let consumes = take_of(net, t, p) > 0;
        feeders += usize::from(feeds);
        consumers += usize::from(consumes);
        rest += usize::from(!feeds & !consumes);
    }
    Counts {
        products: feeders * consumers,
        rest,
    }
}
