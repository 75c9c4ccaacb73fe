// The transitions that feed a place, those that consume from it, and how many leave it alone.
ghost use Rattle.std.specs.Prelude.{◌≡◌, ◌<◌, [], ◌∷◌, ◌++◌, if◌then◌else◌};
ghost use Rattle.arrayvec.specs.ArrayVec.{array_vec_len};
ghost use Rattle.net.specs.States.{view};
ghost use Rattle.products.specs.Products.{Tallied};

use arrayvec::ArrayVec;
use checks::{put_of, take_of, transitions};
use net::{MOST_TRANSITIONS, Net};

// Some of the transitions, ascending.
pub(crate) type Transitions = ArrayVec<u8, MOST_TRANSITIONS>;

#[derive(Drop)]
pub(crate) struct Tally {
    pub(crate) feeders: Transitions,
    pub(crate) consumers: Transitions,
    pub(crate) rest: usize,
}

// Lists a transition behind others, if it belongs there.
fn push_where(list: &mut Transitions, t: u8, belongs: bool)
    requires { array_vec_len list.old < 96 }
    ensures { list.new.items ≡ list.old.items ++ (if belongs then t ∷ [] else []) }
{
    if belongs {
        list.push(t);
    }
}

// Lists the transitions by what they do to p, all in one loop.
pub(crate) fn tally_of(net: &Net<'_>, p: u8) -> Tally
    ensures { Tallied result p (view net.now) }
{
    let mut feeders = ArrayVec::new();
    let mut consumers = ArrayVec::new();
    let mut rest = 0;
    for t in 0..transitions(net).end {
        let feeds = put_of(net, t, p) > 0;
        let consumes = take_of(net, t, p) > 0;
        push_where(&mut feeders, t, feeds);
        push_where(&mut consumers, t, consumes);
        rest += usize::from(!feeds & !consumes);
    }
    Tally {
        feeders,
        consumers,
        rest,
    }
}
