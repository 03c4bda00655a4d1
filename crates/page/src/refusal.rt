ghost use Rattle.std.specs.Prelude.{◌≡◌};
ghost use Rattle.page.specs.declared.refusal.Refusal.TheVariants.{ShortArea};
ghost use Rattle.page.specs.Refusals.{number_of};

use area::Refusal as AreaRefusal;
use numbered::Numbered;

// Why a page is refused, by number.
#[derive(Clone, Copy, PartialEq, Eq, Debug)]
pub enum Refusal {
    // the area is too short for the page
    ShortArea = 6,
    // the cursor place is off the screen
    OffScreen = 13,
    // the page has another size than the screen
    WrongSize = 14,
    // the page ends early
    CutShort = 16,
    // a number of more than two octets, not in its shortest form, or not allowed there
    WrongNumber = 17,
    // octets after the page
    LeftOver = 18,
}

impl Numbered for Refusal {
    ghost number_of = { number_of };

    fn number(&self) -> u8 {
        *self as u8
    }
}

impl From<AreaRefusal> for Refusal {
    ghost from_gives = { λ _ r. r ≡ ShortArea };

    fn from(_e: AreaRefusal) -> Refusal {
        Refusal::ShortArea
    }
}
