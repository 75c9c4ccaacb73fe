// Worked nets as theorems: the function computes nothing.
#![tactic(auto)]

ghost use Rattle.worked.specs.Worked.{WorkedNets};

// Each worked net is printed as it should be, by the definition of what is printed.
pub fn worked_nets()
    ensures { WorkedNets }
{}
