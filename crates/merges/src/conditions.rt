// The conditions of the third house book's steps, each by the name of its definition.
ghost use Rattle.std.specs.Prelude.{◌≡◌, not, ◌&&◌, nat_eq, nat_lt, ◌==◌, ◌%◌};
ghost use Rattle.net.specs.States.{view, in_support, take, put};
ghost use Rattle.theory.specs.Tests.{◌⇒◌, every_place, every_transition, some_place, first, feeder?, consumer?, two_sided?, post_consumers?, post_weights?, free_feeders?, pre_feeders?, free_consumers?};

use checks::{
    OnlyConsumer, Source, Touches, every, first, places, put_of, some, spares_support, take_of,
    touches_only, transitions,
};
use net::{Net, Side};

// Is no transition both a feeder and a consumer of p?
#[tactic(auto, unfolding(theory::specs::Tests::every))]
fn are_one_sided(net: &Net<'_>, p: u8) -> bool
    ensures { result ≡ every_transition (view net.now) (λ t. not (feeder? (view net.now) p t && consumer? (view net.now) p t)) }
{
    transitions(net).all(|t| put_of(net, t, p) == 0 || take_of(net, t, p) == 0)
}

// Has p a feeder and a consumer, and is no transition both?
pub(crate) fn is_two_sided(net: &Net<'_>, p: u8) -> bool
    ensures { result ≡ two_sided? (view net.now) p }
{
    let feeds = Touches {
        side: Side::Puts,
        p,
    };
    let consumes = Touches {
        side: Side::Takes,
        p,
    };
    some(net, &feeds) && some(net, &consumes) && are_one_sided(net, p)
}

// If f is a consumer of p: does it take from p alone, and put into no support place? This sentence on consumers and that on feeders
// stay apart, here as in the definitions, so that a refusal can tell them apart.
fn is_post_consumer(net: &Net<'_>, p: u8, f: u8) -> bool
    ensures { result ≡ (consumer? (view net.now) p f ⇒ every_place (λ q. (not (q == p) ⇒ nat_eq (take (view net.now) f q) 0) && (in_support (view net.now) q ⇒ nat_eq (put (view net.now) f q) 0))) }
{
    take_of(net, f, p) == 0
        || (touches_only(net, Side::Takes, f, p) && spares_support(net, Side::Puts, f))
}

// Post-agglomeration, on consumers: each takes from p alone, and puts into no support place.
#[tactic(auto, unfolding(theory::specs::Tests::every))]
pub(crate) fn are_post_consumers(net: &Net<'_>, p: u8) -> bool
    ensures { result ≡ post_consumers? (view net.now) p }
{
    transitions(net).all(|f| is_post_consumer(net, p, f))
}

// The first consumer of p, the count of the transitions where there is none, as the definition of the weight has it.
fn first_consumer(net: &Net<'_>, p: u8) -> u8
    ensures { result ≡ first (view net.now).transitions (consumer? (view net.now) p) }
{
    let consumes = Touches {
        side: Side::Takes,
        p,
    };
    first(net, &consumes).unwrap_or(transitions(net).end)
}

// Is each feeder's weight at p a multiple of this one?
#[tactic(auto, unfolding(theory::specs::Tests::every))]
fn are_multiples(net: &Net<'_>, p: u8, weight: u32) -> bool
    ensures { result ≡ every_transition (view net.now) (λ h. feeder? (view net.now) p h ⇒ nat_eq (put (view net.now) h p % weight) 0) }
{
    transitions(net).all(|h| {
        let given = put_of(net, h, p);
        given == 0 || (weight > 0 && given % weight == 0)
    })
}

// Is f the only consumer of p, and every feeder's weight at p a multiple of this one?
fn has_one_consumer(net: &Net<'_>, p: u8, f: u8, weight: u32) -> bool
    ensures { result ≡ (every_transition (view net.now) (λ t. consumer? (view net.now) p t ⇒ nat_eq t f) && every_transition (view net.now) (λ h. feeder? (view net.now) p h ⇒ nat_eq (put (view net.now) h p % weight) 0)) }
{
    every(net, &OnlyConsumer { p, t: f }) && are_multiples(net, p, weight)
}

// Are all weights at p this one?
#[tactic(auto, unfolding(theory::specs::Tests::every))]
fn have_weight(net: &Net<'_>, p: u8, weight: u32) -> bool
    ensures { result ≡ every_transition (view net.now) (λ t. (consumer? (view net.now) p t ⇒ nat_eq (take (view net.now) t p) weight) && (feeder? (view net.now) p t ⇒ nat_eq (put (view net.now) t p) weight)) }
{
    transitions(net).all(|t| {
        let taken = take_of(net, t, p);
        let given = put_of(net, t, p);
        (taken == 0 || taken == weight) && (given == 0 || given == weight)
    })
}

// Post-agglomeration, on weights: a consumer uses all that a feeder brings, if it is the only one, or if all weights at p are equal.
pub(crate) fn are_post_weights(net: &Net<'_>, p: u8) -> bool
    ensures { result ≡ post_weights? (view net.now) p }
{
    let f = first_consumer(net, p);
    let weight = take_of(net, f, p);
    has_one_consumer(net, p, f, weight) || have_weight(net, p, weight)
}

// If h is a feeder of p: does it put 1 into p and nothing elsewhere, and take from no support place?
fn is_free_feeder(net: &Net<'_>, p: u8, h: u8) -> bool
    ensures { result ≡ (feeder? (view net.now) p h ⇒ (put (view net.now) h p == 1 && every_place (λ q. (not (q == p) ⇒ nat_eq (put (view net.now) h q) 0) && (in_support (view net.now) q ⇒ nat_eq (take (view net.now) h q) 0)))) }
{
    let given = put_of(net, h, p);
    given == 0
        || (given == 1
            && touches_only(net, Side::Puts, h, p)
            && spares_support(net, Side::Takes, h))
}

// Pre- and free agglomeration, on feeders: each puts 1 into p and nothing elsewhere, and takes from no support place.
#[tactic(auto, unfolding(theory::specs::Tests::every))]
pub(crate) fn are_free_feeders(net: &Net<'_>, p: u8) -> bool
    ensures { result ≡ free_feeders? (view net.now) p }
{
    transitions(net).all(|h| is_free_feeder(net, p, h))
}

// If h takes from q: does no other transition?
fn owns_source(net: &Net<'_>, h: u8, q: u8) -> bool
    ensures { result ≡ (nat_lt 0 (take (view net.now) h q) ⇒ every_transition (view net.now) (λ u. nat_lt 0 (take (view net.now) u q) ⇒ nat_eq u h)) }
{
    take_of(net, h, q) == 0 || every(net, &OnlyConsumer { p: q, t: h })
}

// Is h the only consumer of each place that it takes from?
#[tactic(auto, unfolding(theory::specs::Tests::every))]
fn owns_sources(net: &Net<'_>, h: u8) -> bool
    ensures { result ≡ every_place (λ q. nat_lt 0 (take (view net.now) h q) ⇒ every_transition (view net.now) (λ u. nat_lt 0 (take (view net.now) u q) ⇒ nat_eq u h)) }
{
    places().all(|q| owns_source(net, h, q))
}

// If h is a feeder of p: does it take from somewhere, and is it the only consumer there?
fn is_pre_feeder(net: &Net<'_>, p: u8, h: u8) -> bool
    ensures { result ≡ (feeder? (view net.now) p h ⇒ (some_place (λ q. nat_lt 0 (take (view net.now) h q)) && every_place (λ q. nat_lt 0 (take (view net.now) h q) ⇒ every_transition (view net.now) (λ u. nat_lt 0 (take (view net.now) u q) ⇒ nat_eq u h)))) }
{
    put_of(net, h, p) == 0 || (some(net, &Source { t: h }) && owns_sources(net, h))
}

// Pre-agglomeration, on feeders: each takes from somewhere, and is the only consumer of each place that it takes from.
#[tactic(auto, unfolding(theory::specs::Tests::every))]
pub(crate) fn are_pre_feeders(net: &Net<'_>, p: u8) -> bool
    ensures { result ≡ pre_feeders? (view net.now) p }
{
    transitions(net).all(|h| is_pre_feeder(net, p, h))
}

// Pre- and free agglomeration, on consumers: each takes 1 from p.
#[tactic(auto, unfolding(theory::specs::Tests::every))]
pub(crate) fn are_free_consumers(net: &Net<'_>, p: u8) -> bool
    ensures { result ≡ free_consumers? (view net.now) p }
{
    transitions(net).all(|f| take_of(net, f, p) <= 1)
}
