// The screen in a frame with row and column numbers. Under a row a guide tells its cells apart, unless they are all
// plain and alike and the cursor is not there: then the row stands between # where they are protected.
ghost use Rattle.std.specs.Prelude.{◌<◌};

use crate::places::row_places;
use codes::{FS, GS, HT, RS, SPACE};
use edit::cell::cell_at;
use screen::interface::Screen;
use std::io;
use std::io::Write;

// What the guide shows under a cell.
#[derive(Clone, Copy, PartialEq, Eq)]
enum Mark {
    Cursor,
    TabStop,
    EntryStart,
    OtherSeparator,
    Protected,
    Open,
}

impl Mark {
    fn character(self) -> u8 {
        match self {
            Mark::Cursor => b'^',
            Mark::TabStop => b'T',
            Mark::EntryStart => b'R',
            Mark::OtherSeparator => b'S',
            Mark::Protected => b' ',
            Mark::Open => b'-',
        }
    }
}

// So many times the same.
fn repeated<W: Write>(out: &mut W, text: &[u8], count: usize) -> io::Result<()> {
    for _ in 0..count {
        out.write_all(text)?;
    }
    Ok(())
}

// A screen to be shown with the cursor at a place.
#[derive(Clone, Copy)]
struct Frame<'a, S> {
    screen: &'a S,
    cursor: usize,
}

impl<'a, S: Screen> Frame<'a, S> {
    // The columns' numbers: tens, and then units.
    fn column_numbers<W: Write>(&self, out: &mut W) -> io::Result<()> {
        out.write_all(b"    ")?;
        for column in 0..self.screen.columns() {
            if column % 10 == 0 {
                let tens = column / 10 % 10;
                write!(out, "{tens}")?;
            } else {
                out.write_all(b" ")?;
            }
        }
        out.write_all(b"\n    ")?;
        for column in 0..self.screen.columns() {
            let units = column % 10;
            write!(out, "{units}")?;
        }
        out.write_all(b"\n")
    }

    fn edge<W: Write>(&self, out: &mut W) -> io::Result<()> {
        out.write_all(b"   +")?;
        repeated(out, b"-", self.screen.columns())?;
        out.write_all(b"+\n")
    }

    fn mark(&self, place: usize) -> Mark {
        let (code, protected) = cell_at(self.screen, place);
        match code {
            _ if place == self.cursor => Mark::Cursor,
            HT => Mark::TabStop,
            RS => Mark::EntryStart,
            FS | GS => Mark::OtherSeparator,
            _ if protected => Mark::Protected,
            _ => Mark::Open,
        }
    }

    // Whether all cells of a row have this mark in a guide.
    fn all_marked(&self, row: usize, mark: Mark) -> bool
        requires { row < (S.grid self.now.screen.now).rows }
    {
        row_places(self.screen, row).all(|place| self.mark(place) == mark)
    }

    // A row's characters between two edges; what does not print is a space, and the guide names it.
    fn characters<W: Write>(&self, out: &mut W, row: usize, edge: u8) -> io::Result<()>
        requires { row < (S.grid self.now.screen.now).rows }
    {
        write!(out, "{row:>2} ")?;
        out.write_all(&[edge])?;
        for place in row_places(self.screen, row) {
            let code = cell_at(self.screen, place).0;
            out.write_all(&[code.max(SPACE)])?;
        }
        out.write_all(&[edge, b'\n'])
    }

    fn guide<W: Write>(&self, out: &mut W, row: usize) -> io::Result<()>
        requires { row < (S.grid self.now.screen.now).rows }
    {
        out.write_all(b"   :")?;
        for place in row_places(self.screen, row) {
            out.write_all(&[self.mark(place).character()])?;
        }
        out.write_all(b":\n")
    }

    fn row<W: Write>(&self, out: &mut W, row: usize) -> io::Result<()>
        requires { row < (S.grid self.now.screen.now).rows }
    {
        if self.all_marked(row, Mark::Protected) {
            self.characters(out, row, b'#')
        } else {
            self.characters(out, row, b'|')?;
            if self.all_marked(row, Mark::Open) {
                return Ok(());
            }
            self.guide(out, row)
        }
    }
}

// The whole screen with the cursor at a place.
pub fn framed<S: Screen, W: Write>(out: &mut W, screen: &S, cursor: usize) -> io::Result<()> {
    let frame = Frame { screen, cursor };
    frame.column_numbers(out)?;
    frame.edge(out)?;
    for row in 0..screen.rows() {
        frame.row(out, row)?;
    }
    frame.edge(out)
}

// What the marks of a guide mean.
pub fn legend<W: Write>(out: &mut W) -> io::Result<()> {
    out.write_all(
        b"guide: - open, T tab stop, R start of entry, S other separator, ^ cursor, blank protected;\n       without a guide a row is protected between #, open between |\n",
    )
}
