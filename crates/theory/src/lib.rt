// Each function stands for a theorem, and computes nothing.
#![tactic(auto)]

ghost use Rattle.theory.specs.Laws.{StepsAreLawful};
ghost use Rattle.theory.specs.Mistakes.{FactorZeroInventsAStandstill, SplitTokensAreLost, DroppedMovesInventAStandstill};
ghost use Rattle.theory.specs.Words.{StepsAreExact};

mod refusal;

pub use refusal::Refusal;

// Every step that is taken keeps the support, the question, the qualities of a net, and the answers to the open questions.
pub fn steps_are_lawful()
    ensures { StepsAreLawful }
{}

// A step is taken if and only if all its conditions hold, and then leads to its next state.
pub fn steps_are_exact()
    ensures { StepsAreExact }
{}

// With a factor of 0, a transition that is always enabled would be dropped.
pub fn factor_zero_invents_a_standstill()
    ensures { FactorZeroInventsAStandstill }
{}

// Agglomeration with two tokens from one feeder to two consumers would lose a reachable marking.
pub fn split_tokens_are_lost()
    ensures { SplitTokensAreLost }
{}

// Fusion that drops the two moves would let the net stand still.
pub fn dropped_moves_invent_a_standstill()
    ensures { DroppedMovesInventAStandstill }
{}
