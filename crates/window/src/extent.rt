ghost use Rattle.std.specs.Prelude.{◌≡◌, ℕ, ◌≤◌, true, false, MatchResult};
ghost use Rattle.screen.specs.declared.refusal.Refusal.TheVariants.{WrongSize};
ghost use Rattle.window.specs.Part.{fits_in};

use screen::interface::Screen;
use screen::refusal::Refusal;

// The size of a window.
#[derive(Clone, Copy)]
pub struct Extent {
    pub rows: usize,
    pub columns: usize,
    ghost row_least: { 2 ≤ rows },
    ghost row_most: { rows ≤ 24 },
    ghost column_least: { 1 ≤ columns },
    ghost column_most: { columns ≤ 80 },
}

impl Extent {
    // A size from 2 × 1 up to that of the screen below, or the refusal 14.
    pub fn within<S: Screen>(below: &S, rows: usize, columns: usize) -> Result<Extent, Refusal>
        ensures { MatchResult result (λ e. (fits_in rows columns (S.grid below.now) ≡ true) × (e.rows ≡ rows) × (e.columns ≡ columns)) (λ e. (fits_in rows columns (S.grid below.now) ≡ false) × (e ≡ WrongSize)) }
    {
        let height = below.rows();
        let width = below.columns();
        if rows < 2 || rows > height || columns < 1 || columns > width {
            return Err(Refusal::WrongSize);
        }
        Ok(Extent { rows, columns })
    }
}
