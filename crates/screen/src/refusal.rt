ghost use Rattle.std.specs.Prelude.{◌≡◌};
ghost use Rattle.screen.specs.Answers.{number_of};

use numbered::Numbered;

// Why a call is refused, by number.
#[derive(Clone, Copy, PartialEq, Eq, Debug)]
pub enum Refusal {
    // a place or row off the screen, or a character that no cell holds
    OffScreen = 13,
    // a size that is not allowed or larger than the screen below, or an area too short for it
    WrongSize = 14,
}

impl Numbered for Refusal {
    ghost number_of = { number_of };

    fn number(&self) -> u8 {
        *self as u8
    }
}
