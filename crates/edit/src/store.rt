// The keys that store a character.
ghost use Rattle.std.specs.Prelude.{◌≡◌, ◌<◌, ◌≤◌, nat_lt, IfSome, if◌then◌else◌, Some, None};
ghost use Rattle.edit.specs.View.{size};
ghost use Rattle.edit.specs.Writing.{open_from, first_open, any_open, stored};

use crate::cell::{cell_count, is_open, on_screen};
use crate::moves::round;
use crate::view::View;
use screen::interface::Screen;

// The first open cell at or after a place, if any.
fn open_from<S: Screen>(screen: &S, from: usize) -> Option<usize>
    requires { from ≤ size (S.grid screen.now) }
    ensures { result ≡ (if nat_lt (open_from (S.grid screen.now) from) (size (S.grid screen.now)) then Some (open_from (S.grid screen.now) from) else None) }
{
    (from..cell_count(screen)).find(|place| is_open(screen, *place))
}

// The same, going round.
fn next_open<S: Screen>(screen: &S, from: usize) -> Option<usize>
    requires { from ≤ size (S.grid screen.now) }
    ensures value { result ≡ (if any_open (S.grid screen.now) then Some (first_open (S.grid screen.now) from) else None) }
    ensures on { IfSome result (λ place. place < size (S.grid screen.now)) }
{
    open_from(screen, from).or_else(|| open_from(screen, 0))
}

// Whether any cell is open. The search begins at the cursor, where one is likely.
pub fn any_open<S: Screen>(screen: &S, cursor: usize) -> bool
    ensures { result ≡ any_open (S.grid screen.now) }
{
    next_open(screen, on_screen(screen, cursor)).is_some()
}

impl<'s, S: Screen> View<'s, S> {
    ghost use Rattle.edit.specs.Shown.{shown, beside};

    // Stores a character in the first open cell at or after the cursor, which goes to the next one, both going round. The
    // answer tells whether any cell is open; where none is, nothing is stored.
    pub fn store(&mut self, code: u8) -> bool
        ensures beside { beside self.new ≡ beside self.old }
        ensures answer { result ≡ any_open (shown self.old).grid }
        ensures view { shown self.new ≡ (if any_open (shown self.old).grid then stored code (shown self.old) else shown self.old) }
    {
        let count = cell_count(self.screen);
        let Some(place) = next_open(self.screen, self.cursor) else {
            return false;
        };
        let next = next_open(self.screen, round(place + 1, count)).unwrap_or(place);
        let _ = self.screen.write(place, code, false);
        self.cursor = next;
        true
    }
}
