// Takes up the cells from the nearest start of entry to the cursor.
ghost use Rattle.std.specs.Prelude.{◌≡◌, ◌+◌, ◌-◌, ◌*◌, ◌<◌, ◌≤◌, false, filter};
ghost use Rattle.std.specs.List.{suffix_len, between};
ghost use Rattle.edit.specs.View.{size, view, at};
ghost use Rattle.transmission.specs.Text.{is_sent, is_open_space, start_at, sends, row_sends, trimmed, opening, stretch, taken};
ghost use Rattle.transmission.specs.Held.{text_of, sent_of};

use crate::held::HeldText;
use crate::kind::Kind;
use crate::spell::is_open_space;
use codes::{CR, ESC, RS, SI, SPACE, VT};
use edit::cell::{cell_at, on_screen};
use screen::interface::Screen;

// The nearest start of entry at or before the cursor, or place 0: a `for`, since with `find` over the places from the
// cursor back it stayed open that none lies between.
#[tactic(auto, using(crate::proofs::Parts::start_at_back, crate::proofs::Parts::start_at_here))]
fn start_at<S: Screen>(screen: &S, cursor: usize) -> usize
    ensures place { result ≡ start_at (S.grid screen.now).cells cursor }
    ensures before { result ≤ cursor }
{
    for place in (1..=cursor).rev() {
        if cell_at(screen, place).0 == RS {
            return place;
        }
    }
    0
}

// Where a part ends without the open spaces at the end of what is sent of it, and how many of those there are; the one caller
// takes the pair apart at once.
fn trimmed_end<S: Screen>(screen: &S, from: usize, to: usize, kind: Kind) -> (usize, usize)
    requires { (from ≤ to) × (to ≤ size (S.grid screen.now)) }
    ensures left { result.1 ≡ suffix_len is_open_space (filter (is_sent kind) (between from to (S.grid screen.now).cells)) }
    ensures stop { filter (is_sent kind) (between from result.0 (S.grid screen.now).cells) ≡ trimmed (filter (is_sent kind) (between from to (S.grid screen.now).cells)) }
    ensures low { from ≤ result.0 }
    ensures room { result.0 + result.1 ≤ to }
{
    let mut left = 0;
    for place in (from..to).rev() {
        let found = cell_at(screen, place);
        if kind.sends(found) {
            if !is_open_space(found) {
                return (place + 1, left);
            }
            left += 1;
        }
    }
    (from, left)
}

impl HeldText {
    // The address of the first cell.
    fn put_address<S: Screen>(&mut self, screen: &S, first: usize)
        requires { first < size (S.grid screen.now) }
        ensures sent { sent_of self.new ≡ record { characters = opening (S.grid screen.now).columns first; last = false } }
        ensures len { self.new.len ≡ 5 }
    {
        let columns = screen.columns();
        self.clear();
        self.push(ESC);
        self.push(VT);
        self.push((first / columns) as u8 + SPACE);
        self.push((first % columns) as u8 + SPACE);
        self.push(SI);
    }

    // Sends the cells of a part.
    #[tactic(auto, using(crate::proofs::Parts::sends_next))]
    fn put_part<S: Screen>(&mut self, screen: &S, from: usize, to: usize, kind: Kind)
        requires { (from ≤ to) × ((to ≤ size (S.grid screen.now)) × (self.old.len + 3 * (to - from) ≤ 5766)) }
        ensures sent { sent_of self.new ≡ sends kind (between from to (S.grid screen.now).cells) (sent_of self.old) }
        ensures len { self.new.len ≤ self.old.len + 3 * (to - from) }
    {
        for place in from..to {
            self.put_cell(cell_at(screen, place), kind);
        }
    }

    // Sends a row before the cursor's.
    fn put_row<S: Screen>(&mut self, screen: &S, from: usize, to: usize, kind: Kind)
        requires { (from ≤ to) × ((to ≤ size (S.grid screen.now)) × (self.old.len + 3 * (to - from) ≤ 5766)) }
        ensures sent { sent_of self.new ≡ row_sends kind (between from to (S.grid screen.now).cells) (sent_of self.old) }
        ensures len { self.new.len ≤ self.old.len + 3 * (to - from) }
    {
        let (stop, left) = trimmed_end(screen, from, to, kind);
        self.put_part(screen, from, stop, kind);
        if left > 0 {
            self.push(CR);
        }
    }

    // Sends the cells from the first through the cursor's, row by row.
    #[tactic(auto, using(edit::proofs::Sizes::size_most, crate::proofs::Parts::row_after, crate::proofs::Parts::row_before))]
    fn put_stretch<S: Screen>(&mut self, screen: &S, first: usize, cursor: usize, kind: Kind)
        requires { (first ≤ cursor) × ((cursor < size (S.grid screen.now)) × (self.old.len ≡ 5)) }
        ensures sent { sent_of self.new ≡ stretch kind (view (S.grid screen.now) cursor) first (sent_of self.old) }
        ensures len { self.new.len < 5766 }
    {
        let columns = screen.columns();
        let mut from = first;
        for row in first / columns + 1..cursor / columns + 1 {
            self.put_row(screen, from, row * columns, kind);
            from = row * columns;
        }
        self.put_part(screen, from, cursor + 1, kind);
    }

    // Takes up the text of a transmission with the cursor at a place, in the place of what stood here.
    pub fn take_up<S: Screen>(&mut self, screen: &S, cursor: usize, kind: Kind)
        ensures { text_of self.new ≡ taken kind (at (S.grid screen.now) cursor) }
    {
        let place = on_screen(screen, cursor);
        let first = start_at(screen, place);
        self.put_address(screen, first);
        self.put_stretch(screen, first, place, kind);
        self.turn(false);
    }
}
