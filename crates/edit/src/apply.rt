// Carries out edits.
ghost use Rattle.std.specs.Prelude.{◌≡◌};
ghost use Rattle.edit.specs.View.{view, at};
ghost use Rattle.edit.specs.Moves.{addressed};

use crate::cell::{cell_count, on_screen};
use crate::edits::{Change, Edit};
use crate::view::View;
use screen::interface::Screen;

impl<'s, S: Screen> View<'s, S> {
    ghost use Rattle.edit.specs.Edits.{redrawn, edited};
    ghost use Rattle.edit.specs.Shown.{shown, beside};

    // Changes cells at the cursor.
    fn change(&mut self, change: Change)
        ensures beside { beside self.new ≡ beside self.old }
        ensures view { shown self.new ≡ view (redrawn change (shown self.old)) self.old.cursor }
    {
        let row = self.cursor / self.screen.columns();
        let end = cell_count(self.screen);
        match change {
            Change::InsertRow => {
                let _ = self.screen.insert_row(row);
            }
            Change::RemoveRow => {
                let _ = self.screen.remove_row(row);
            }
            Change::EraseAll => self.erase(end),
            Change::EraseOpen => self.erase_open(end),
            Change::Erase(reach) => self.erase(self.run_end(reach)),
            Change::Delete(reach) => self.delete(self.run_end(reach)),
            Change::Insert(reach) => self.insert(self.run_end(reach)),
        }
    }

    // Carries out an edit.
    pub fn apply(&mut self, edit: Edit)
        ensures beside { beside self.new ≡ beside self.old }
        ensures view { shown self.new ≡ edited edit (shown self.old) }
    {
        match edit {
            Edit::Move(motion) => self.cursor = self.moved(motion),
            Edit::Change(change) => self.change(change),
        }
    }

    // Goes to a row and a column, counted from 0; off the screen there is no move.
    #[tactic(auto, using(crate::proofs::Sizes::placed_on))]
    pub fn move_to(&mut self, row: u8, column: u8)
        ensures beside { beside self.new ≡ beside self.old }
        ensures view { shown self.new ≡ addressed row column (shown self.old) }
    {
        if let Ok(place) = self.screen.place(row as usize, column as usize) {
            self.cursor = place;
        }
    }
}

// Where an address takes the cursor of a screen that is only read.
pub fn move_to<S: Screen>(screen: &S, cursor: usize, row: u8, column: u8) -> usize
    ensures { view (S.grid screen.now) result ≡ addressed row column (at (S.grid screen.now) cursor) }
{
    let place = on_screen(screen, cursor);
    screen.place(row as usize, column as usize).unwrap_or(place)
}
