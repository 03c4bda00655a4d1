// Worked examples and laws, proved on the definitions of a host text.
ghost use Rattle.host.specs.Examples.{LastPlace, NoMove, TwoRows};
ghost use Rattle.host.specs.Laws.{StepsStayOnScreen, TakenFromStepsBefore};

// It does nothing: its contract says that the examples hold.
pub fn examples_hold()
    ensures last { LastPlace }
    ensures off { NoMove }
    ensures rows { TwoRows }
{}

// It does nothing: its contract says that the laws hold.
pub fn laws_hold()
    ensures stay { StepsStayOnScreen }
    ensures taken { TakenFromStepsBefore }
{}
