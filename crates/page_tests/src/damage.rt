// Pages damaged at every place, and what they are refused with.
ghost use Rattle.std.specs.Prelude.{◌<◌, length};

use crate::random::fill;
use page::read::read_page;
use page::refusal::Refusal;
use page::write::write_page;
use screen::interface::Screen;
use std::alloc::{AllocError, Global};
use std::test::Fail;

// Cut short anywhere, the page is refused with 16.
fn cut<S: Screen>(page: &[u8], screen: &mut S) -> bool {
    (0..page.len()).all(|end| read_page(&page[..end], screen) == Err(Refusal::CutShort))
}

// The page with `more` put in behind a number, whose last octet, at `place`, says that another follows.
fn with_more(alloc: Global, page: &[u8], place: usize, more: &[u8]) -> Result<Vec<u8>, AllocError>
    requires { place < length page.now }
{
    let mut longer = Vec::from_slice(alloc, &page[..=place])?;
    longer[place] |= 0x80;
    longer.extend_from_slice(more)?;
    longer.extend_from_slice(&page[place + 1..])?;
    Ok(longer)
}

// With groups put in behind any number, the page is refused with 17.
fn longer_numbers<S: Screen>(
    alloc: Global,
    page: &[u8],
    more: &[u8],
    screen: &mut S,
) -> Result<bool, AllocError> {
    for (place, octet) in page.iter().enumerate() {
        if *octet < 0x80 {
            let longer = with_more(alloc, page, place, more)?;
            if read_page(&longer, screen) != Err(Refusal::WrongNumber) {
                return Ok(false);
            }
        }
    }
    Ok(true)
}

// With an octet changed to one that is not allowed there, in any open cell, the page is refused with 17.
fn wrong_cells<S: Screen>(
    alloc: Global,
    page: &[u8],
    wrong: u8,
    screen: &mut S,
) -> Result<bool, AllocError> {
    let mut changed = Vec::from_slice(alloc, page)?;
    for (place, octet) in page.iter().enumerate() {
        if place > 4 && (0x20..0x80).contains(octet) {
            changed[place] = wrong;
            if read_page(&changed, screen) != Err(Refusal::WrongNumber) {
                return Ok(false);
            }
            changed[place] = *octet;
        }
    }
    Ok(true)
}

// Whether the page of random cells is refused as it should be, however it is damaged, and the screen then still shows it.
pub fn every_damage<S: Screen>(alloc: Global, screen: &mut S, seed: u32) -> Result<bool, Fail> {
    let cursor = fill(screen, seed);
    let mut area = [0x20; 4000];
    let length = write_page(screen, cursor, &mut area)?;
    if length >= 4000 {
        return Ok(false);
    }
    let page = &area[..length];
    let left_over = read_page(&area[..length + 1], screen) == Err(Refusal::LeftOver);
    let refused = cut(page, screen)
        && longer_numbers(alloc, page, &[0x00], screen)?
        && longer_numbers(alloc, page, &[0x81, 0x01], screen)?
        && wrong_cells(alloc, page, 0x7f, screen)?
        && wrong_cells(alloc, page, 0x00, screen)?;
    let mut again = [0x20; 4000];
    let second = write_page(screen, cursor, &mut again)?;
    Ok(left_over && refused && second == length && area == again)
}
