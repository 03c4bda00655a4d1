// Where a place of a window lies on the screen below.
ghost use Rattle.std.specs.Prelude.{◌≡◌, ℕ, ◌≤◌, min};
ghost use Rattle.screen.specs.Grid.{has_place};
ghost use Rattle.screen.specs.Answers.{on_screen};
ghost use Rattle.window.specs.Part.{corner, windowed};

use screen::interface::Screen;
use screen::refusal::Refusal;

// The place below of a place of the window of this size.
pub(crate) fn place_below<S: Screen>(
    below: &S,
    rows: usize,
    columns: usize,
    place: usize,
) -> Result<usize, Refusal>
    requires few { rows ≤ 24 }
    requires some { 1 ≤ columns }
    ensures { result ≡ on_screen (has_place (windowed rows columns (S.grid below.now)) place) (corner (S.grid below.now).columns (min columns (S.grid below.now).columns) place) }
{
    let height = rows.min(below.rows());
    let width = columns.min(below.columns());
    if place >= height * width {
        return Err(Refusal::OffScreen);
    }
    below.place(place / width, place % width)
}
