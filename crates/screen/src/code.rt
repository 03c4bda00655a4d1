ghost use Rattle.std.specs.Prelude.{◌≡◌};
ghost use Rattle.screen.specs.Cells.{storable};

use codes::{FS, GS, HT, RS};

// Whether a cell can hold the character.
#[tactic(auto, unfolding(crate::specs::Cells::storable))]
pub fn is_storable(code: u8) -> bool
    ensures { result ≡ storable code }
{
    // in two tests: a compiler sorts the cases of one by their codes, and then most characters, which are data, come last
    matches!(code, 0x20..=0x7e) || matches!(code, HT | FS | GS | RS)
}
