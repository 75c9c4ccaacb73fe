// The conditions of the first house book's steps, each by the name of its definition.
ghost use Rattle.std.specs.Prelude.{◌≡◌, ◌*◌, ◌==◌, length};
ghost use Rattle.net.specs.States.{view};
ghost use Rattle.checks.specs.Alone.{weight};
ghost use Rattle.theory.specs.Tests.{every_place, dominated?, multiple?, composed?, draining?, sourceless?, unfed?, starved?, never_loses?, always_enough?, implied?, covers?};

use checks::{mark_of, number_in, places, put_of, supports_at, take_of, transitions, weights_of};
use net::{Net, Side};

// On a sheet of the right size the weights of a transition are lent whole, which a loop over the places reads faster than one by one.
// Some loops run to their end by `&`, and do not stop at the first that fails, since the compiler then takes several nodes at once.

// Does t take at least what u takes everywhere, with the same effect?
#[tactic(auto, unfolding(theory::specs::Tests::every))]
pub(crate) fn is_dominated(net: &Net<'_>, t: u8, u: u8) -> bool
    requires { length net.now.sheet.now ≡ 12352 }
    ensures { result ≡ dominated? (view net.now) t u }
{
    let takes_t = weights_of(net, Side::Takes, t);
    let puts_t = weights_of(net, Side::Puts, t);
    let takes_u = weights_of(net, Side::Takes, u);
    let puts_u = weights_of(net, Side::Puts, u);
    places().all(|p| {
        let take_t = u64::from(number_in(takes_t, p));
        let take_u = u64::from(number_in(takes_u, p));
        take_u <= take_t
            && u64::from(number_in(puts_t, p)) + take_u == u64::from(number_in(puts_u, p)) + take_t
    })
}

// Are the weights of t on this side those of u, times the factor?
fn are_times(net: &Net<'_>, side: Side, t: u8, u: u8, k: u16) -> bool
    requires { length net.now.sheet.now ≡ 12352 }
    ensures { result ≡ every_place (λ p. weight side (view net.now) t p == (k * weight side (view net.now) u p)) }
{
    let weights = weights_of(net, side, t);
    let of = weights_of(net, side, u);
    let mut all = true;
    for p in places() {
        all &= u64::from(number_in(weights, p)) == u64::from(k) * u64::from(number_in(of, p));
    }
    all
}

// Are takes and puts of t those of u, times the factor?
pub(crate) fn is_multiple(net: &Net<'_>, t: u8, u: u8, k: u16) -> bool
    requires { length net.now.sheet.now ≡ 12352 }
    ensures { result ≡ multiple? (view net.now) t u k }
{
    are_times(net, Side::Takes, t, u, k) && are_times(net, Side::Puts, t, u, k)
}

// Does t do what u and then v do?
#[tactic(auto, unfolding(theory::specs::Tests::every))]
pub(crate) fn is_composed(net: &Net<'_>, t: u8, u: u8, v: u8) -> bool
    requires { length net.now.sheet.now ≡ 12352 }
    ensures { result ≡ composed? (view net.now) t u v }
{
    let takes_t = weights_of(net, Side::Takes, t);
    let puts_t = weights_of(net, Side::Puts, t);
    let takes_u = weights_of(net, Side::Takes, u);
    let puts_u = weights_of(net, Side::Puts, u);
    let takes_v = weights_of(net, Side::Takes, v);
    let puts_v = weights_of(net, Side::Puts, v);
    places().all(|p| {
        let take_t = u64::from(number_in(takes_t, p));
        let take_u = u64::from(number_in(takes_u, p));
        let take_v = u64::from(number_in(takes_v, p));
        let put_u = u64::from(number_in(puts_u, p));
        take_u <= take_t
            && take_v <= put_u
            && u64::from(number_in(puts_t, p)) + take_u + take_v
                == put_u + u64::from(number_in(puts_v, p)) + take_t
    })
}

// Has t no positive effect, and none on the support?
#[tactic(auto, unfolding(theory::specs::Tests::every))]
pub(crate) fn is_draining(net: &Net<'_>, t: u8) -> bool
    requires { length net.now.sheet.now ≡ 12352 }
    ensures { result ≡ draining? (view net.now) t }
{
    let takes = weights_of(net, Side::Takes, t);
    let puts = weights_of(net, Side::Puts, t);
    places().all(|p| {
        let taken = number_in(takes, p);
        let given = number_in(puts, p);
        given <= taken && (given == taken || !supports_at(net, p))
    })
}

// Does t take nothing?
#[tactic(auto, unfolding(theory::specs::Tests::every))]
pub(crate) fn is_sourceless(net: &Net<'_>, t: u8) -> bool
    ensures { result ≡ sourceless? (view net.now) t }
{
    places().all(|p| take_of(net, t, p) == 0)
}

// Does no transition put into p?
pub(crate) fn is_unfed(net: &Net<'_>, p: u8) -> bool
    ensures { result ≡ unfed? (view net.now) p }
{
    transitions(net).fold(true, |all, t| all & (put_of(net, t, p) == 0))
}

// Does t take more from p than its mark?
pub(crate) fn is_starved(net: &Net<'_>, t: u8, p: u8) -> bool
    ensures { result ≡ starved? (view net.now) t p }
{
    mark_of(net, p) < take_of(net, t, p)
}

// Is no effect at p negative?
pub(crate) fn never_loses(net: &Net<'_>, p: u8) -> bool
    ensures { result ≡ never_loses? (view net.now) p }
{
    transitions(net).fold(
        true,
        |all, t| all & (take_of(net, t, p) <= put_of(net, t, p)),
    )
}

// Does no transition take more from p than its mark?
pub(crate) fn has_always_enough(net: &Net<'_>, p: u8) -> bool
    ensures { result ≡ always_enough? (view net.now) p }
{
    let mark = mark_of(net, p);
    transitions(net).fold(true, |all, t| all & (take_of(net, t, p) <= mark))
}

// Does every transition take from p at most k times what it takes from q, with an effect at p of at least k times that at q?
#[tactic(auto, unfolding(theory::specs::Tests::every))]
pub(crate) fn is_implied(net: &Net<'_>, p: u8, q: u8, k: u16) -> bool
    ensures { result ≡ implied? (view net.now) p q k }
{
    let k = u64::from(k);
    transitions(net).all(|t| {
        let take_p = u64::from(take_of(net, t, p));
        let take_q = k * u64::from(take_of(net, t, q));
        let put_q = k * u64::from(put_of(net, t, q));
        take_p <= take_q && put_q + take_p <= u64::from(put_of(net, t, p)) + take_q
    })
}

// Is the mark of p at least k times that of q?
pub(crate) fn covers(net: &Net<'_>, p: u8, q: u8, k: u16) -> bool
    ensures { result ≡ covers? (view net.now) p q k }
{
    u64::from(k) * u64::from(mark_of(net, q)) <= u64::from(mark_of(net, p))
}
