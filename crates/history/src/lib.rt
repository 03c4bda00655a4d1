// The histories of a terminal, and the law that every one of them keeps.
#![tactic(auto)]

ghost use Rattle.history.specs.Law.{Law};

use line::Line;
use station::identity::Identity;

// It does nothing: its contract says that the law holds for every terminal on this line.
pub fn law_holds<L: Line>(line: &L, identity: Identity)
    ensures { Law L.Line.kind identity }
{}
