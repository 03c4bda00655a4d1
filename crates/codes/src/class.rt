// The class of each code.
ghost use Rattle.std.specs.Prelude.{◌≡◌};
ghost use Rattle.codes.specs.Classes.{class_of};

use Class::{Control, Data, Fill, Framing};

#[derive(Clone, Copy, PartialEq, Eq, Debug)]
pub enum Class {
    Fill,
    Framing,
    Data,
    Control,
}

// The codes 00 to 7F in their order.
static CLASSES: [Class; 128] = [
    Fill, Framing, Control, Framing, Control, Control, Control, Control, Control, Control, Control,
    Control, Control, Control, Control, Control, Control, Control, Control, Control, Control,
    Control, Fill, Control, Control, Control, Control, Control, Control, Control, Control, Control,
    Data, Data, Data, Data, Data, Data, Data, Data, Data, Data, Data, Data, Data, Data, Data, Data,
    Data, Data, Data, Data, Data, Data, Data, Data, Data, Data, Data, Data, Data, Data, Data, Data,
    Data, Data, Data, Data, Data, Data, Data, Data, Data, Data, Data, Data, Data, Data, Data, Data,
    Data, Data, Data, Data, Data, Data, Data, Data, Data, Data, Data, Data, Data, Data, Data, Data,
    Data, Data, Data, Data, Data, Data, Data, Data, Data, Data, Data, Data, Data, Data, Data, Data,
    Data, Data, Data, Data, Data, Data, Data, Data, Data, Data, Data, Data, Data, Data, Data,
    Control,
];

impl Class {
    // The class of a code. An octet of 80 or more is no code, and counts as a control without a rule.
    pub fn of(code: u8) -> Class
        ensures { result ≡ class_of code }
    {
        CLASSES.get(code as usize).copied().unwrap_or(Control)
    }
}
