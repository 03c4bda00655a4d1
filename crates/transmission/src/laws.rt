// What every transmission's text keeps, proved on its definition.
ghost use Rattle.transmission.specs.Laws.{TextsArePlain};

// It does nothing: its contract says that the law holds.
pub fn laws_hold()
    ensures { TextsArePlain }
{}
