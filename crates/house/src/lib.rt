// The four house books joined in their order: each judges the steps whose first byte it owns.
#![tactic(auto)]

ghost use Rattle.house.specs.House.{JudgesSteps, TakesSteps};

pub use basics::{BasicFault, Basics};
pub use books::faults::{BookFault, Misfit, Numbered};
use books::joined::join;
pub use books::joined::{EitherFault, Joined};
pub use merges::{MergeFault, Merges};
pub use moves::{MoveFault, Moves};
pub use sets::{SetFault, Sets};
pub use theory::Refusal;

pub type House = Joined<Basics, Joined<Sets, Joined<Merges, Moves>>>;

// A refusal says from which of the books it came.
pub type HouseFault = EitherFault<
    BasicFault,
    EitherFault<SetFault, EitherFault<MergeFault, MoveFault>>,
>;

// The house book. It judges the bytes of a step as the definition of the step does, and takes nothing else.
pub fn house() -> House
    ensures judges { JudgesSteps }
    ensures takes { TakesSteps }
{
    join(Basics, join(Sets, join(Merges, Moves)))
}
