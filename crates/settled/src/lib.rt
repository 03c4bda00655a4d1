// The settled examples, proved together on the definitions that the contracts use.
#![tactic(auto)]

ghost use Rattle.settled.specs.Settled.{Settled};

// It does nothing: its contract says that the examples hold.
pub fn examples_hold()
    ensures { Settled }
{}
