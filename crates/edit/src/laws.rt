// What edits and writing keep, proved on their definitions.
ghost use Rattle.edit.specs.Laws.{StayOnScreen, CaptionsStay};

// It does nothing: its contract says that the laws hold.
pub fn laws_hold()
    ensures stay { StayOnScreen }
    ensures captions { CaptionsStay }
{}
