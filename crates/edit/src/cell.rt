// The cells of any screen by their places.
ghost use Rattle.std.specs.Prelude.{◌≡◌, ◌%◌, ◌<◌, ◌≤◌, true, slice_index_or};
ghost use Rattle.screen.specs.Cells.{cell, blank, storable};
ghost use Rattle.edit.specs.View.{size};
ghost use Rattle.edit.specs.Parts.{is_open};

use codes::SPACE;
use screen::interface::Screen;

// How many cells a screen has.
pub fn cell_count<S: Screen>(screen: &S) -> usize
    ensures value { result ≡ size (S.grid screen.now) }
    ensures some { 0 < result }
    ensures wide { (S.grid screen.now).columns ≤ result }
    ensures most { result ≤ 1920 }
{
    screen.rows() * screen.columns()
}

// A cursor as a place of the screen, going round.
pub fn on_screen<S: Screen>(screen: &S, cursor: usize) -> usize
    ensures value { result ≡ cursor % size (S.grid screen.now) }
    ensures on { result < size (S.grid screen.now) }
{
    cursor % cell_count(screen)
}

// The cell at a place; off the screen an open space.
#[tactic(auto, using(screen::proofs::Cells::space_storable))]
pub fn cell_at<S: Screen>(screen: &S, place: usize) -> (u8, bool)
    ensures value { cell result.0 result.1 ≡ slice_index_or (S.grid screen.now).cells place blank }
    ensures stored { storable result.0 ≡ true }
{
    // a `match`, since with `unwrap_or` each cell is packed and unpacked
    match screen.read(place) {
        Ok(found) => found,
        Err(_) => (SPACE, false),
    }
}

// Whether the cell at a place is open.
pub fn is_open<S: Screen>(screen: &S, place: usize) -> bool
    ensures { result ≡ is_open (slice_index_or (S.grid screen.now).cells place blank) }
{
    let (_, protected) = cell_at(screen, place);
    !protected
}
