ghost use Rattle.std.specs.Prelude.{◌≡◌, ℕ, ◌*◌, ◌≤◌, ◌&&◌, true, false, length, nat_lt, MatchResult};
ghost use Rattle.screen.specs.declared.refusal.Refusal.TheVariants.{WrongSize};
ghost use Rattle.screen.specs.Cells.{storable};
ghost use Rattle.screen.specs.Answers.{done_if};
ghost use Rattle.stores.specs.Size.{allowed, has_room};

use screen::code::is_storable;
use screen::refusal::Refusal;

// The size of a store: 12 × 80, 16 × 64, 24 × 64 or 24 × 80.
#[derive(Clone, Copy)]
pub struct Size {
    pub rows: usize,
    pub columns: usize,
    ghost allowed: { allowed rows columns ≡ true },
}

impl Size {
    // One of the four sizes, or the refusal 14.
    pub fn new(rows: usize, columns: usize) -> Result<Size, Refusal>
        ensures { MatchResult result (λ s. (s.rows ≡ rows) × (s.columns ≡ columns)) (λ e. (allowed rows columns ≡ false) × (e ≡ WrongSize)) }
    {
        if is_allowed(rows, columns) {
            Ok(Size { rows, columns })
        } else {
            Err(Refusal::WrongSize)
        }
    }

    // One of the four sizes that the area has a word for each cell of, or the refusal 14.
    pub fn in_area(area: &[u16], rows: usize, columns: usize) -> Result<Size, Refusal>
        ensures { MatchResult result (λ s. (s.rows ≡ rows) × (s.columns ≡ columns) × (s.rows * s.columns ≤ length area.now)) (λ e. (has_room rows columns (length area.now) ≡ false) × (e ≡ WrongSize)) }
    {
        let size = Size::new(rows, columns)?;
        if rows * columns <= area.len() {
            Ok(size)
        } else {
            Err(Refusal::WrongSize)
        }
    }

    // Refuses a place off the store.
    pub(crate) fn check_place(self, place: usize) -> Result<(), Refusal>
        ensures { result ≡ done_if (nat_lt place (self.rows * self.columns)) }
    {
        if place < self.rows * self.columns {
            Ok(())
        } else {
            Err(Refusal::OffScreen)
        }
    }

    // Refuses a row off the store.
    pub(crate) fn check_row(self, row: usize) -> Result<(), Refusal>
        ensures { result ≡ done_if (nat_lt row self.rows) }
    {
        if row < self.rows {
            Ok(())
        } else {
            Err(Refusal::OffScreen)
        }
    }

    // Refuses to write off the store, or a character that no cell holds.
    pub(crate) fn check_write(self, place: usize, code: u8) -> Result<(), Refusal>
        ensures { result ≡ done_if (nat_lt place (self.rows * self.columns) && storable code) }
    {
        self.check_place(place)?;
        if is_storable(code) {
            Ok(())
        } else {
            Err(Refusal::OffScreen)
        }
    }
}

fn is_allowed(rows: usize, columns: usize) -> bool
    ensures { result ≡ allowed rows columns }
{
    matches!((rows, columns), (12 | 24, 80) | (16 | 24, 64))
}
