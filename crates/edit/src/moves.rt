// Cursor moves, all going round.
ghost use Rattle.std.specs.Prelude.{◌≡◌, ◌+◌, ◌%◌, ◌<◌};

use crate::cell::{cell_at, cell_count};
use crate::edits::Motion;
use crate::view::View;
use codes::HT;
use screen::interface::Screen;

// A place at most one round too far.
#[tactic(auto, using(crate::proofs::Sizes::round_once))]
pub(crate) fn round(place: usize, count: usize) -> usize
    requires { place < count + count }
    ensures { result ≡ place % count }
{
    if place < count { place } else { place - count }
}

impl<'s, S: Screen> View<'s, S> {
    ghost use Rattle.std.specs.Prelude.{nat_lt, IfSome, if◌then◌else◌, Some, None};
    ghost use Rattle.edit.specs.View.{size};
    ghost use Rattle.edit.specs.Moves.{moved, stop_from};
    ghost use Rattle.edit.specs.Shown.{shown};

    // The first tab stop at or after the cursor.
    fn next_stop(&self) -> Option<usize>
        ensures stop { result ≡ (if nat_lt (stop_from (shown self.now)) (size (shown self.now).grid) then Some (stop_from (shown self.now)) else None) }
        ensures on { IfSome result (λ place. place < size (shown self.now).grid) }
    {
        // a `for`, since with `find` a cell takes half as long again
        for place in self.cursor..cell_count(self.screen) {
            if cell_at(self.screen, place).0 == HT {
                return Some(place);
            }
        }
        None
    }

    // Where a move takes the cursor.
    pub(crate) fn moved(&self, motion: Motion) -> usize
        ensures { result ≡ moved motion (shown self.now) }
    {
        let cursor = self.cursor;
        let end = cell_count(self.screen);
        let columns = self.screen.columns();
        match motion {
            Motion::Home => 0,
            Motion::Up => round(cursor + (end - columns), end),
            Motion::Down => round(cursor + columns, end),
            Motion::Left => round(cursor + (end - 1), end),
            Motion::Right => round(cursor + 1, end),
            Motion::Return => round(cursor - cursor % columns + columns, end),
            Motion::Tab => match self.next_stop() {
                Some(stop) => round(stop + 1, end),
                None => 0,
            },
        }
    }
}
