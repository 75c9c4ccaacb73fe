// Firings of a transition ahead of time.
ghost use Rattle.std.specs.Prelude.{◌≡◌, ℕ, ◌*◌, ◌<◌, is_some, IfSome, length, slice_index, nat_le, nat_lt};
ghost use Rattle.net.specs.States.{view, mark, take};
ghost use Rattle.theory.specs.Tests.{lowest, mark_ahead, ahead_fits?};

use checks::{Source, first, mark_of, marks_of, number_in, places, take_of, weights_of};
use net::{MOST_PLACES, Net, Side};

// k firings of transition t.
#[derive(Clone, Copy, Debug, PartialEq, Eq)]
pub(crate) struct Ahead {
    pub t: u8,
    pub k: u16,
}

impl Ahead {
    // The first place that t takes from.
    pub(crate) fn source(self, net: &Net<'_>) -> Option<u8>
        ensures { result ≡ lowest 64 (λ p. nat_lt 0 (take (view net.now) self.t p)) }
    {
        first(net, &Source { t: self.t })
    }

    // Does the mark of p suffice?
    pub(crate) fn suffices_at(self, net: &Net<'_>, p: u8) -> bool
        ensures { result ≡ nat_le (self.k * take (view net.now) self.t p) (mark (view net.now) p) }
    {
        u64::from(self.k) * u64::from(take_of(net, self.t, p)) <= u64::from(mark_of(net, p))
    }

    // The marks afterwards, unless one is past its limit. The loop runs to its end, and in numbers of 32 bits, since the compiler then
    // takes several places at once: on a sheet of the right size a weight has at most 16 bits, as k has.
    pub(crate) fn marks(self, net: &Net<'_>) -> Option<[u32; MOST_PLACES]>
        requires { length net.now.sheet.now ≡ 12352 }
        ensures fit { is_some result ≡ ahead_fits? (view net.now) self.t self.k }
        ensures marks { IfSome result (λ ms. (p : ℕ) → p < 64 → slice_index ms p ≡ mark_ahead (view net.now) self.t self.k p) }
    {
        let before = marks_of(net);
        let takes = weights_of(net, Side::Takes, self.t);
        let puts = weights_of(net, Side::Puts, self.t);
        let k = u32::from(self.k);
        let mut marks = [0; MOST_PLACES];
        let mut all = true;
        for p in places() {
            let rest = number_in(before, p).saturating_sub(k * number_in(takes, p));
            let (mark, past) = rest.overflowing_add(k * number_in(puts, p));
            marks[usize::from(p)] = mark;
            all &= !past;
        }
        all.then_some(marks)
    }
}
