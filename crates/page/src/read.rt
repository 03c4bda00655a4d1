// Reading a page: it is walked through once to find all of it good, and then once more to write the cells.
ghost use Rattle.std.specs.Prelude.{◌≡◌, ℕ, true, ◌&&◌, List, [], length, IfOk, Ok, ◌==◌};
ghost use Rattle.screen.specs.Cells.{Cell};
ghost use Rattle.screen.specs.Grid.{with_cells, written};
ghost use Rattle.page.specs.Numbers.{read};
ghost use Rattle.page.specs.Pages.{cell_in, cells_in};
ghost use Rattle.page.specs.Walk.{rest_of};
ghost use Rattle.page.specs.Checks.{Found, Finds, Shown};
ghost use Rattle.page.specs.Calls.{reads, octets_at};

use crate::reader::{Header, Reader};
use crate::refusal::Refusal;
use screen::interface::Screen;

// A page found good: its header, and a reader at its first cell.
#[derive(Clone, Copy)]
struct Checked<'a> {
    header: Header,
    cells: Reader<'a>,
}

impl<'a> Checked<'a> {
    // Walks through all of the octets.
    fn walk(octets: &'a [u8]) -> Result<Checked<'a>, Refusal>
        ensures { Finds octets.now result }
    {
        let mut reader = Reader::new(octets);
        let header = reader.header()?;
        let cells = reader;
        reader.skip_cells(header.rows * header.columns)?;
        if !reader.is_at_end() {
            return Err(Refusal::LeftOver);
        }
        Ok(Checked { header, cells })
    }

    // Whether the screen has its size.
    fn fits<S: Screen>(&self, screen: &S) -> bool
        ensures { result ≡ (self.now.header.rows == (S.grid screen.now).rows) && (self.now.header.columns == (S.grid screen.now).columns) }
    {
        self.header.rows == screen.rows() && self.header.columns == screen.columns()
    }

    // Writes its cells to a screen of its size, and answers the cursor place.
    fn show<S: Screen>(self, screen: &mut S) -> usize
        requires { (self.header.rows == (S.grid screen.old).rows) && (self.header.columns == (S.grid screen.old).columns) ≡ true }
        ensures rest { S.rest screen.new ≡ S.rest screen.old }
        ensures shown { (os : List ℕ) → Found os self.entry → Shown os (S.grid screen.old) result (S.grid screen.new) }
    {
        draw(self.cells, self.header.rows * self.header.columns, screen);
        self.header.cursor
    }
}

// Writes the next cell from a reader to a place of the screen.
fn draw_cell<S: Screen>(cells: &mut Reader, place: usize, screen: &mut S)
    ensures rest { S.rest screen.new ≡ S.rest screen.old }
    ensures cell { (c : Cell) (os : List ℕ) → cell_in (rest_of cells.old) ≡ Ok (read c os) → (rest_of cells.new ≡ os) × (S.grid screen.new ≡ written (S.grid screen.old) place c.code c.protected) }
{
    if let Ok((code, mark)) = cells.cell() {
        let _ = screen.write(place, code, mark);
    }
}

// Writes so many cells from a reader to the screen, from its first place on.
fn draw<S: Screen>(mut cells: Reader, count: usize, screen: &mut S)
    ensures rest { S.rest screen.new ≡ S.rest screen.old }
    ensures grid { (cs : List Cell) → cells_in count (rest_of cells.entry) ≡ Ok (read cs []) → count ≡ length (S.grid screen.old).cells → S.grid screen.new ≡ with_cells (S.grid screen.old) cs }
{
    for place in 0..count {
        draw_cell(&mut cells, place, screen);
    }
}

// Reads a page onto a screen of its size, and answers the cursor place. A refusal changes no cell.
pub fn read_page<S: Screen>(octets: &[u8], screen: &mut S) -> Result<usize, Refusal>
    ensures rest { S.rest screen.new ≡ S.rest screen.old }
    ensures grid { S.grid screen.new ≡ (reads (S.grid screen.old) octets.now).grid }
    ensures answer { result ≡ (reads (S.grid screen.old) octets.now).answer }
    ensures written_back { IfOk result (λ cursor. octets_at (S.grid screen.new) cursor ≡ octets.now) }
{
    let page = Checked::walk(octets)?;
    if !page.fits(screen) {
        return Err(Refusal::WrongSize);
    }
    Ok(page.show(screen))
}
