// Changes of the cells from the cursor to an end, and the runs of open cells that they go over.
ghost use Rattle.std.specs.Prelude.{◌≡◌, ◌+◌, ◌-◌, ◌≤◌, true, if◌then◌else◌, nat_lt, slice_index_or};
ghost use Rattle.screen.specs.Cells.{cell, blank, storable};

use crate::cell::{cell_at, cell_count, is_open};
use crate::edits::Reach;
use crate::view::View;
use codes::SPACE;
use screen::interface::Screen;

// The cell at a place before the end; from there on an open space.
#[tactic(auto, using(screen::proofs::Cells::space_storable))]
fn cell_before<S: Screen>(screen: &S, place: usize, end: usize) -> (u8, bool)
    ensures value { cell result.0 result.1 ≡ (if nat_lt place end then slice_index_or (S.grid screen.now).cells place blank else blank) }
    ensures stored { storable result.0 ≡ true }
{
    if place < end {
        cell_at(screen, place)
    } else {
        (SPACE, false)
    }
}

impl<'s, S: Screen> View<'s, S> {
    ghost use Rattle.edit.specs.View.{view, size};
    ghost use Rattle.edit.specs.Shown.{shown, beside};
    ghost use Rattle.edit.specs.Parts.{redraw, erased, open_erased, deleted, pushed, room, run};

    // The end of the cursor's row, or of the display.
    fn room_end(&self, reach: Reach) -> usize
        ensures value { result ≡ self.now.cursor + room reach (shown self.now) }
        ensures within { result ≤ size (shown self.now).grid }
    {
        match reach {
            Reach::Row => {
                let columns = self.screen.columns();
                self.cursor + (columns - self.cursor % columns)
            }
            Reach::Display => cell_count(self.screen),
        }
    }

    // The end of the run at the cursor: the first protected cell, or else the end of its row, or of the display.
    pub(crate) fn run_end(&self, reach: Reach) -> usize
        ensures value { result ≡ self.now.cursor + run reach (shown self.now) }
        ensures within { result ≤ size (shown self.now).grid }
    {
        let screen = &*self.screen;
        let end = self.room_end(reach);
        (self.cursor..end)
            .find(|place| !is_open(screen, *place))
            .unwrap_or(end)
    }

    // Four loops, and not one with a closure: the second leaves cells out, the third reads ahead, the last carries a cell.

    // Makes the cells before the end open spaces.
    pub(crate) fn erase(&mut self, end: usize)
        requires { (self.old.cursor ≤ end) × (end ≤ size (shown self.old).grid) }
        ensures beside { beside self.new ≡ beside self.old }
        ensures view { shown self.new ≡ view (redraw (shown self.old).grid self.old.cursor (end - self.old.cursor) erased) self.old.cursor }
    {
        for k in self.cursor..end {
            let _ = self.screen.write(k, SPACE, false);
        }
    }

    // Makes the open ones among them spaces.
    pub(crate) fn erase_open(&mut self, end: usize)
        requires { (self.old.cursor ≤ end) × (end ≤ size (shown self.old).grid) }
        ensures beside { beside self.new ≡ beside self.old }
        ensures view { shown self.new ≡ view (redraw (shown self.old).grid self.old.cursor (end - self.old.cursor) open_erased) self.old.cursor }
    {
        for k in self.cursor..end {
            if is_open(self.screen, k) {
                let _ = self.screen.write(k, SPACE, false);
            }
        }
    }

    // Deletes the first of them, and adds a space behind the last.
    pub(crate) fn delete(&mut self, end: usize)
        requires { (self.old.cursor ≤ end) × (end ≤ size (shown self.old).grid) }
        ensures beside { beside self.new ≡ beside self.old }
        ensures view { shown self.new ≡ view (redraw (shown self.old).grid self.old.cursor (end - self.old.cursor) deleted) self.old.cursor }
    {
        for k in self.cursor..end {
            let (code, protected) = cell_before(self.screen, k + 1, end);
            let _ = self.screen.write(k, code, protected);
        }
    }

    // Puts a space before them, and loses the last.
    pub(crate) fn insert(&mut self, end: usize)
        requires { (self.old.cursor ≤ end) × (end ≤ size (shown self.old).grid) }
        ensures beside { beside self.new ≡ beside self.old }
        ensures view { shown self.new ≡ view (redraw (shown self.old).grid self.old.cursor (end - self.old.cursor) pushed) self.old.cursor }
    {
        let mut before = (SPACE, false);
        for k in self.cursor..end {
            let here = cell_at(self.screen, k);
            let (code, protected) = before;
            let _ = self.screen.write(k, code, protected);
            before = here;
        }
    }
}
