// A reply that is still to be acknowledged.
ghost use Rattle.std.specs.Prelude.{◌≡◌};
ghost use Rattle.console.specs.Console.{is_empty};

// What a reply carries beside an acknowledgement. Nothing is one of three loads: an Option around two would only nest them.
#[derive(Clone, Copy, PartialEq, Eq, Debug)]
pub enum Load {
    Nothing,
    Text,
    Call,
}

// The held text or call is the copy that a repeat sends.
#[derive(Clone, Copy, PartialEq, Eq, Debug)]
pub struct Outstanding {
    pub acknowledges: bool,
    pub load: Load,
}

impl Outstanding {
    // Whether a reply would say nothing.
    pub fn is_empty(self) -> bool
        ensures { result ≡ is_empty self }
    {
        !self.acknowledges && self.load == Load::Nothing
    }
}
