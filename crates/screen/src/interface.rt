ghost use Rattle.std.specs.Prelude.{◌≡◌, ◌&&◌};
ghost use Rattle.screen.specs.Grid.{Grid, Sound, has_place, has_row, writable, written, copied, cleared, removed, inserted};
ghost use Rattle.screen.specs.Answers.{read_at, split_at, place_at, done_if};

use crate::refusal::Refusal;

// Rows and columns of cells, counted from 0; a place is the number of a cell, row by row. A place or row off the
// screen, or a character that no cell holds, is refused with 13 and nothing changes; nothing else is refused.
pub trait Screen {
    // what the screen shows
    ghost grid: { Self → Grid };

    // what lies beside the cells and no call touches, with the names of the references that lead there
    ghost Rest: { Type 0 };

    ghost rest: { Self → Rest };

    ghost sound: { (s : Self) → Sound (grid s) };

    fn rows(&self) -> usize
        ensures { result ≡ (grid self.now).rows };

    fn columns(&self) -> usize
        ensures { result ≡ (grid self.now).columns };

    // The character of a cell and its protection mark.
    fn read(&self, place: usize) -> Result<(u8, bool), Refusal>
        ensures { result ≡ read_at (grid self.now) place };

    // Writes one cell.
    fn write(&mut self, place: usize, code: u8, mark: bool) -> Result<(), Refusal>
        ensures rest { rest self.new ≡ rest self.old }
        ensures answer { result ≡ done_if (writable (grid self.old) place code) }
        ensures grid { grid self.new ≡ written (grid self.old) place code mark };

    // The row and the column of a place.
    fn split(&self, place: usize) -> Result<(usize, usize), Refusal>
        ensures { result ≡ split_at (grid self.now) place }
    {
        let columns = self.columns();
        let rows = self.rows();
        if place >= rows * columns {
            return Err(Refusal::OffScreen);
        }
        Ok((place / columns, place % columns))
    }

    // The place of a row and a column.
    fn place(&self, row: usize, column: usize) -> Result<usize, Refusal>
        ensures { result ≡ place_at (grid self.now) row column }
    {
        let columns = self.columns();
        let rows = self.rows();
        if row >= rows || column >= columns {
            return Err(Refusal::OffScreen);
        }
        Ok(row * columns + column)
    }

    // Copies one cell onto another.
    fn copy_cell(&mut self, to: usize, from: usize) -> Result<(), Refusal>
        ensures rest { rest self.new ≡ rest self.old }
        ensures answer { result ≡ done_if (has_place (grid self.old) from && has_place (grid self.old) to) }
        ensures grid { grid self.new ≡ copied (grid self.old) to from }
    {
        let (code, mark) = self.read(from)?;
        self.write(to, code, mark)
    }

    // Makes a row open spaces.
    fn clear_row(&mut self, row: usize) -> Result<(), Refusal>
        ensures rest { rest self.new ≡ rest self.old }
        ensures answer { result ≡ done_if (has_row (grid self.old) row) }
        ensures grid { grid self.new ≡ cleared (grid self.old) row }
    {
        if row >= self.rows() {
            return Err(Refusal::OffScreen);
        }
        let columns = self.columns();
        let first = row * columns;
        for place in first..first + columns {
            let _ = self.write(place, codes::SPACE, false);
        }
        Ok(())
    }

    // Moves the rows below `row` one up, and makes the last one open spaces.
    fn remove_row(&mut self, row: usize) -> Result<(), Refusal>
        ensures rest { rest self.new ≡ rest self.old }
        ensures answer { result ≡ done_if (has_row (grid self.old) row) }
        ensures grid { grid self.new ≡ removed (grid self.old) row }
    {
        let rows = self.rows();
        if row >= rows {
            return Err(Refusal::OffScreen);
        }
        let columns = self.columns();
        for to in row * columns..(rows - 1) * columns {
            let _ = self.copy_cell(to, to + columns);
        }
        self.clear_row(rows - 1)
    }

    // Moves `row` and the rows below it one down, losing the last one, and makes `row` open spaces.
    fn insert_row(&mut self, row: usize) -> Result<(), Refusal>
        ensures rest { rest self.new ≡ rest self.old }
        ensures answer { result ≡ done_if (has_row (grid self.old) row) }
        ensures grid { grid self.new ≡ inserted (grid self.old) row }
    {
        let rows = self.rows();
        if row >= rows {
            return Err(Refusal::OffScreen);
        }
        let columns = self.columns();
        // from the last cell back, where a removal goes forward: so the two are no one function
        for from in (row * columns..(rows - 1) * columns).rev() {
            let _ = self.copy_cell(from + columns, from);
        }
        self.clear_row(row)
    }
}
