// Worked examples, proved on the definition of a text's steps.
ghost use Rattle.text.specs.Examples.{Addresses, ThirdData, EarlySI, Twice};

// It does nothing: its contract says that the examples hold.
pub fn examples_hold()
    ensures addresses { Addresses }
    ensures third { ThirdData }
    ensures early { EarlySI }
    ensures twice { Twice }
{}
