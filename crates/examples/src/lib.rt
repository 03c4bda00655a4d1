// The settled examples, proved together on the definitions that the contracts use.
#![tactic(auto)]

ghost use Rattle.examples.specs.Settled.{LineOctets, PollCheck, NoTrafficCheck};

// It computes nothing: its contract is the examples.
pub fn examples_hold()
    ensures line_octets { LineOctets }
    ensures poll_check { PollCheck }
    ensures no_traffic_check { NoTrafficCheck }
{}
