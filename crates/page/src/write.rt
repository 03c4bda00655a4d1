// Writing a page: its length is found first, and then its numbers are written one after another.
ghost use Rattle.std.specs.Prelude.{◌≡◌, ◌^◌, ◌<◌, ◌≤◌, true, false, length, take, All, IfOk, MatchResult, slice_index_or};
ghost use Rattle.area.specs.Over.{over};
ghost use Rattle.screen.specs.Cells.{blank};
ghost use Rattle.screen.specs.Grid.{has_place};
ghost use Rattle.page.specs.declared.refusal.Refusal.TheVariants.{OffScreen};
ghost use Rattle.page.specs.Pages.{cell_number, page_numbers};
ghost use Rattle.page.specs.Calls.{page_at, octets_at, writes, ReadsBack};

use crate::cell::cell_number;
use crate::number::{number_length, put_number};
use crate::refusal::Refusal;
use area::room;
use codes::SPACE;
use screen::interface::Screen;

// A page to be written: a screen, and a cursor place on it.
#[derive(Drop)]
struct Page<'a, S: Screen> {
    screen: &'a S,
    cursor: usize,
    ghost on: { has_place (S.Screen.grid screen.now) cursor ≡ true },
}

impl<'a, S: Screen> Page<'a, S> {
    // The page of a screen, if the cursor place is on it.
    fn new(screen: &'a S, cursor: usize) -> Result<Page<'a, S>, Refusal>
        ensures { MatchResult result (λ p. (p.screen.now ≡ screen.now) × (p.cursor ≡ cursor)) (λ e. (e ≡ OffScreen) × (has_place (S.grid screen.now) cursor ≡ false)) }
    {
        if cursor >= screen.rows() * screen.columns() {
            return Err(Refusal::OffScreen);
        }
        Ok(Page { screen, cursor })
    }

    // The numbers before the cells: the kind of page, the size and the cursor place.
    fn header(&self) -> [usize; 4]
        ensures numbers { result ≡ take 4 (page_numbers (page_at (S.grid self.now.screen.now) self.now.cursor)) }
        ensures small { All (λ n. n < 2 ^ 14) result }
    {
        [1, self.screen.rows(), self.screen.columns(), self.cursor]
    }

    // A cell's number.
    fn cell(&self, place: usize) -> usize
        ensures number { result ≡ cell_number (slice_index_or (S.grid self.now.screen.now).cells place blank) }
        ensures small { result < 2 ^ 14 }
    {
        let (code, mark) = self.screen.read(place).unwrap_or((SPACE, false));
        cell_number(code, mark)
    }

    // How many cells it has.
    fn count(&self) -> usize
        ensures { result ≡ length (S.grid self.now.screen.now).cells }
    {
        self.screen.rows() * self.screen.columns()
    }

    // How many octets it has: two loops as below, since with `sum` its bound stayed open.
    fn length(&self) -> usize
        ensures { result ≡ length (octets_at (S.grid self.now.screen.now) self.now.cursor) }
    {
        let mut length = 0;
        for n in self.header() {
            length += number_length(n);
        }
        for place in 0..self.count() {
            length += number_length(self.cell(place));
        }
        length
    }

    // Writes it into an area that has room for it, and answers its length.
    fn write(&self, area: &mut [u8]) -> usize
        requires { length (octets_at (S.grid self.now.screen.now) self.now.cursor) ≤ length area.old }
        ensures area { area.new ≡ over (octets_at (S.grid self.now.screen.now) self.now.cursor) area.old }
        ensures length { result ≡ length (octets_at (S.grid self.now.screen.now) self.now.cursor) }
    {
        let mut end = 0;
        for n in self.header() {
            end = put_number(area, end, n);
        }
        for place in 0..self.count() {
            end = put_number(area, end, self.cell(place));
        }
        end
    }
}

// Writes the page of a screen, with the cursor at this place, into the area, and answers its length.
pub fn write_page<S: Screen>(screen: &S, cursor: usize, area: &mut [u8]) -> Result<usize, Refusal>
    ensures area { area.new ≡ (writes (S.grid screen.now) cursor area.old).area }
    ensures answer { result ≡ (writes (S.grid screen.now) cursor area.old).answer }
    ensures read_back { IfOk result (λ n. ReadsBack (S.grid screen.now) cursor (take n area.new)) }
{
    let page = Page::new(screen, cursor)?;
    room(area, 0, page.length())?;
    Ok(page.write(area))
}
