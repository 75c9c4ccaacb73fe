// Why a step is refused.
ghost use Rattle.std.specs.Prelude.{◌≡◌};
ghost use Rattle.theory.specs.Steps.{refusal_number};

// Why a step is refused, in the order in which it is asked: the step does not serve an open question, names a transition or a
// place that does not stand, names the same one twice, has factor 0 or an empty set, is at odds with the support, with the arcs
// or with the marks, or would have too many products, too many transitions, or a number past its limit.
// Each stands with the number that is told.
#[derive(Clone, Copy, Debug, PartialEq, Eq)]
pub enum Refusal {
    NotServed = 13,
    NoTransition = 8,
    NoPlace = 9,
    NotDistinct = 14,
    Nothing = 15,
    Support = 16,
    Arcs = 17,
    Marks = 18,
    TooManyPairs = 19,
    TooManyRows = 20,
    PastLimit = 21,
}

// The number of the refusal.
impl From<Refusal> for u8 {
    ghost from_gives = { λ refusal number. number ≡ refusal_number refusal };

    fn from(refusal: Refusal) -> u8 {
        refusal as u8
    }
}
