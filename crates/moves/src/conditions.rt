// The conditions of the fourth house book's steps, each by the name of its definition.
ghost use Rattle.std.specs.Prelude.{◌≡◌};
ghost use Rattle.net.specs.States.{view};
ghost use Rattle.moves.specs.Moves.{hidden_at, only_at};
ghost use Rattle.theory.specs.Tests.{carries?};

use checks::{OnlyConsumer, every, put_of, spares_support, supports_at, take_of, touches_only};
use net::{Net, Side};

// Does t put nothing into p and nothing into the support, with p outside the support?
fn is_hidden(net: &Net<'_>, t: u8, p: u8) -> bool
    ensures { result ≡ hidden_at (view net.now) t p }
{
    put_of(net, t, p) == 0 && spares_support(net, Side::Puts, t) && !supports_at(net, p)
}

// Does t take from no place but p, is it the only consumer of p, and is it hidden from the support?
pub(crate) fn is_only(net: &Net<'_>, t: u8, p: u8) -> bool
    ensures { result ≡ only_at (view net.now) t p }
{
    touches_only(net, Side::Takes, t, p)
        && every(net, &OnlyConsumer { p, t })
        && is_hidden(net, t, p)
}

// Does a take 1 from p, put 1 into q, and nothing else?
pub(crate) fn carries(net: &Net<'_>, a: u8, p: u8, q: u8) -> bool
    ensures { result ≡ carries? (view net.now) a p q }
{
    take_of(net, a, p) == 1
        && put_of(net, a, q) == 1
        && touches_only(net, Side::Takes, a, p)
        && touches_only(net, Side::Puts, a, q)
}
