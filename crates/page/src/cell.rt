// A cell as a number of the page: its character, and 128 more if it is protected.
ghost use Rattle.std.specs.Prelude.{◌≡◌, Some, None, cond};
ghost use Rattle.screen.specs.Cells.{cell};
ghost use Rattle.screen.specs.Answers.{parts};
ghost use Rattle.page.specs.Pages.{cell_number, is_cell, cell_of};

use screen::code::is_storable;

// The number of a cell.
pub(crate) fn cell_number(code: u8, mark: bool) -> usize
    ensures { result ≡ cell_number (cell code mark) }
{
    code as usize + if mark { 0x80 } else { 0 }
}

// The cell that has the number, if one has.
pub(crate) fn cell_of(number: usize) -> Option<(u8, bool)>
    ensures { result ≡ cond (is_cell number) (Some (parts (cell_of number))) None }
{
    if number >= 0x100 {
        return None;
    }
    let code = (number % 0x80) as u8;
    is_storable(code).then_some((code, number >= 0x80))
}
