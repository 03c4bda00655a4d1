// A reader walks a stored page from its first octet.
ghost use Rattle.std.specs.Prelude.{◌≤◌, length};

use crate::cell::cell_of;
use crate::number::first_number;
use crate::refusal::Refusal;

// The octets, and the place of the next one.
#[derive(Clone, Copy)]
pub struct Reader<'a> {
    octets: &'a [u8],
    place: usize,
    ghost within: { place ≤ length octets.now },
}

// What stands before the cells.
#[derive(Clone, Copy)]
pub(crate) struct Header {
    pub(crate) rows: usize,
    pub(crate) columns: usize,
    pub(crate) cursor: usize,
}

impl<'a> Reader<'a> {
    ghost use Rattle.std.specs.Prelude.{◌≡◌, ◌≤◌, [], ◌∷◌, length, IfOk, Ok, Err, MatchResult, ◌==◌};
    ghost use Rattle.screen.specs.Cells.{cell};
    ghost use Rattle.page.specs.declared.refusal.Refusal.TheVariants.{WrongNumber};
    ghost use Rattle.page.specs.Numbers.{number, read, first_number, first_where, told, left};
    ghost use Rattle.page.specs.Pages.{within, cell_in, cells_in, header_in};
    ghost use Rattle.page.specs.Walk.{rest_of, end_of, Reads};

    // A reader at the first octet.
    pub fn new(octets: &'a [u8]) -> Reader<'a>
        ensures { rest_of result ≡ octets.now }
    {
        Reader { octets, place: 0 }
    }

    // The next number. A refusal leaves the reader where it was. 300 is AC 02, and 81 00 is refused with 17.
    pub fn number(&mut self) -> Result<usize, Refusal>
        ensures answer { result ≡ told (first_number (rest_of self.old)) }
        ensures rest { rest_of self.new ≡ left (first_number (rest_of self.old)) (rest_of self.old) }
        ensures longer { number 300 ≡ 0xAC ∷ 0x02 ∷ [] }
        ensures padded { first_number (0x81 ∷ 0x00 ∷ []) ≡ Err WrongNumber }
    {
        let (number, count) = first_number(&self.octets[self.place..])?;
        self.place += count;
        Ok(number)
    }

    // Whether nothing is left to read.
    pub(crate) fn is_at_end(&self) -> bool
        ensures { result ≡ (length (rest_of self.now) == 0) }
    {
        self.place == self.octets.len()
    }

    // The next number, where it is one of these.
    fn number_within(&mut self, least: usize, most: usize) -> Result<usize, Refusal>
        ensures reads { Reads (first_where (within least most) (rest_of self.old)) result (rest_of self.new) }
        ensures range { IfOk result (λ n. (least ≤ n) × (n ≤ most)) }
    {
        let number = self.number()?;
        (least..=most)
            .contains(&number)
            .then_some(number)
            .ok_or(Refusal::WrongNumber)
    }

    // The next cell.
    pub(crate) fn cell(&mut self) -> Result<(u8, bool), Refusal>
        ensures { MatchResult result (λ p. cell_in (rest_of self.old) ≡ Ok (read (cell p.0 p.1) (rest_of self.new))) (λ e. cell_in (rest_of self.old) ≡ Err e) }
    {
        cell_of(self.number()?).ok_or(Refusal::WrongNumber)
    }

    // Past so many cells.
    pub(crate) fn skip_cells(&mut self, count: usize) -> Result<(), Refusal>
        ensures { MatchResult result (λ _. end_of (cells_in count (rest_of self.old)) ≡ Ok (rest_of self.new)) (λ e. cells_in count (rest_of self.old) ≡ Err e) }
    {
        for _ in 0..count {
            self.cell()?;
        }
        Ok(())
    }

    // The numbers before the cells.
    pub(crate) fn header(&mut self) -> Result<Header, Refusal>
        ensures reads { Reads (header_in (rest_of self.old)) result (rest_of self.new) }
        ensures size { IfOk result (λ h. (h.rows ≤ 24) × (h.columns ≤ 80)) }
    {
        self.number_within(1, 1)?;
        let rows = self.number_within(2, 24)?;
        let columns = self.number_within(1, 80)?;
        let cursor = self.number_within(0, rows * columns - 1)?;
        Ok(Header {
            rows,
            columns,
            cursor,
        })
    }
}
