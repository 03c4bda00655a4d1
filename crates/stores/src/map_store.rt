ghost use Rattle.std.specs.Prelude.{◌≡◌, ℕ, ◌*◌, ◌≤◌, length, replicate};
ghost use Rattle.screen.specs.Cells.{blank};
ghost use Rattle.stores.specs.Maps.{map_grid, map_sound, AllCodes};

use crate::marks::{mark_at, with_mark};
use crate::rows::Rows;
use crate::size::Size;
use screen::interface::Screen;
use screen::refusal::Refusal;

// Its own characters, beside a map of protection bits, eight cells to a byte.
// The arrays are of the largest size, since memory is fixed.
#[derive(Drop)]
pub struct MapStore {
    chars: [u8; 1920],
    marks: [u8; 240],
    size: Size,
    ghost held: { AllCodes (size.rows * size.columns) chars },
}

impl MapStore {
    // A store of open spaces.
    pub fn new(size: Size) -> MapStore
        ensures { map_grid result.size.rows result.size.columns result.chars result.marks ≡ record { rows = size.rows; columns = size.columns; cells = replicate (size.rows * size.columns) blank } }
    {
        MapStore {
            chars: [codes::SPACE; 1920],
            marks: [0; 240],
            size,
        }
    }
}

impl Screen for MapStore {
    ghost grid = { λ s. map_grid s.size.rows s.size.columns s.chars s.marks };

    ghost Rest = { Unit {0} };

    ghost rest = { λ s. tt };

    ghost sound = { λ s. map_sound s.size.rows s.size.columns s.chars s.marks s.size.allowed s.held };

    fn rows(&self) -> usize {
        self.size.rows
    }

    fn columns(&self) -> usize {
        self.size.columns
    }

    #[tactic(auto, using(crate::proofs::Maps::shown))]
    fn read(&self, place: usize) -> Result<(u8, bool), Refusal> {
        self.size.check_place(place)?;
        Ok((self.chars[place], mark_at(self.marks[place / 8], place % 8)))
    }

    #[tactic(auto, using(crate::proofs::Maps::shown))]
    fn write(&mut self, place: usize, code: u8, mark: bool) -> Result<(), Refusal> {
        self.size.check_write(place, code)?;
        let byte = with_mark(self.marks[place / 8], place % 8, mark);
        self.chars[place] = code;
        self.marks[place / 8] = byte;
        Ok(())
    }

    // A row begins and ends with a byte of the map, so each move of rows is made twice: a helper that takes the move would be
    // no shorter than these three.
    fn clear_row(&mut self, row: usize) -> Result<(), Refusal> {
        self.size.check_row(row)?;
        let Size { rows, columns, .. } = self.size;
        Rows::new(&mut self.chars, rows, columns, codes::SPACE).clear(row);
        Rows::new(&mut self.marks, rows, columns / 8, 0).clear(row);
        Ok(())
    }

    fn remove_row(&mut self, row: usize) -> Result<(), Refusal> {
        self.size.check_row(row)?;
        let Size { rows, columns, .. } = self.size;
        Rows::new(&mut self.chars, rows, columns, codes::SPACE).remove(row);
        Rows::new(&mut self.marks, rows, columns / 8, 0).remove(row);
        Ok(())
    }

    fn insert_row(&mut self, row: usize) -> Result<(), Refusal> {
        self.size.check_row(row)?;
        let Size { rows, columns, .. } = self.size;
        Rows::new(&mut self.chars, rows, columns, codes::SPACE).insert(row);
        Rows::new(&mut self.marks, rows, columns / 8, 0).insert(row);
        Ok(())
    }
}
