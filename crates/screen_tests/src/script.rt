// The script, and cells compared.
ghost use Rattle.std.specs.Prelude.{◌≡◌};
ghost use Rattle.screen.specs.Grid.{writable};
ghost use Rattle.screen.specs.Answers.{on_screen};
ghost use Rattle.screen_tests.specs.Size.{SameSize};

use codes::{FS, HT, RS};
use screen::interface::Screen;
use screen::refusal::Refusal;

// Letters in the first and the last cells, some protected, with a tab stop and a start of entry.
fn fill_in<S: Screen>(screen: &mut S, last: usize)
    ensures rest { S.rest screen.new ≡ S.rest screen.old }
    ensures size { SameSize (S.grid screen.old) (S.grid screen.new) }
{
    let _ = screen.write(0, b'A', true);
    let _ = screen.write(1, b'B', false);
    let _ = screen.write(2, HT, true);
    let _ = screen.write(3, RS, false);
    let _ = screen.write(last, b'Z', true);
    let _ = screen.copy_cell(5, 0);
}

// Rows removed and inserted, the first and the last too.
fn move_rows<S: Screen>(screen: &mut S, bottom: usize)
    ensures rest { S.rest screen.new ≡ S.rest screen.old }
    ensures size { SameSize (S.grid screen.old) (S.grid screen.new) }
{
    let _ = screen.insert_row(0);
    let _ = screen.insert_row(1);
    let _ = screen.remove_row(0);
    let _ = screen.remove_row(bottom);
    let _ = screen.insert_row(bottom);
    let _ = screen.clear_row(bottom);
}

// Calls off the screen and of a character that no cell holds: the number of those refused.
fn refused_calls<S: Screen>(screen: &mut S, rows: usize, end: usize) -> u8
    ensures rest { S.rest screen.new ≡ S.rest screen.old }
    ensures size { SameSize (S.grid screen.old) (S.grid screen.new) }
{
    let place = screen.write(end, b'X', false);
    let code = screen.write(0, 0x7f, false);
    let row = screen.remove_row(rows);
    let other = screen.insert_row(rows);
    u8::from(place.is_err())
        + u8::from(code.is_err())
        + u8::from(row.is_err())
        + u8::from(other.is_err())
}

// The script: answers how many calls were refused, of the four that should be.
pub fn script<S: Screen>(screen: &mut S) -> u8
    ensures rest { S.rest screen.new ≡ S.rest screen.old }
    ensures size { SameSize (S.grid screen.old) (S.grid screen.new) }
{
    let rows = screen.rows();
    let columns = screen.columns();
    let end = rows * columns;
    fill_in(screen, end - 1);
    move_rows(screen, rows - 1);
    let _ = screen.write(end - 1, FS, true);
    refused_calls(screen, rows, end)
}

// What is written reads back, on every screen.
pub fn write_and_read<S: Screen>(
    screen: &mut S,
    place: usize,
    code: u8,
    mark: bool,
) -> Result<(u8, bool), Refusal>
    ensures { result ≡ on_screen (writable (S.grid screen.old) place code) (code, mark) }
{
    screen.write(place, code, mark)?;
    screen.read(place)
}

// Whether two screens have the same size and the same cells.
pub fn same_cells<A: Screen, B: Screen>(a: &A, b: &B) -> bool {
    let rows = a.rows();
    let columns = a.columns();
    rows == b.rows()
        && columns == b.columns()
        && (0..rows * columns).all(|place| a.read(place).is_ok() && a.read(place) == b.read(place))
}
