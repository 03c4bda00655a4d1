// Where the cells of a row are.
ghost use Rattle.std.specs.Prelude.{◌≡◌, ◌+◌, ◌*◌, ◌<◌};

use screen::interface::Screen;
use std::ops::Range;

// The places of a row, from left to right.
pub fn row_places<S: Screen>(screen: &S, row: usize) -> Range<usize>
    requires { row < (S.grid screen.now).rows }
    ensures first { result.start ≡ row * (S.grid screen.now).columns }
    ensures end { result.end ≡ row * (S.grid screen.now).columns + (S.grid screen.now).columns }
{
    let columns = screen.columns();
    let first = row * columns;
    first..first + columns
}
