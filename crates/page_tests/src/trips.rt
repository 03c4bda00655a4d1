// A page there and back.
use crate::random::{clear, fill};
use page::read::read_page;
use page::refusal::Refusal;
use page::write::write_page;
use screen::interface::Screen;

// Writes the page of random cells, reads it onto the cleared screen, and writes it again: whether the cursor and all
// octets are the same, the area's own octets behind the page are kept, and an area one octet shorter is refused with 6.
pub fn there_and_back<S: Screen>(screen: &mut S, seed: u32) -> Result<bool, Refusal> {
    let cursor = fill(screen, seed);
    let mut area = [0xee; 4000];
    let length = write_page(screen, cursor, &mut area)?;
    clear(screen);
    if length == 0 || length >= 4000 {
        return Ok(false);
    }
    let found = read_page(&area[..length], screen)?;
    let mut again = [0xee; 4000];
    let second = write_page(screen, found, &mut again)?;
    let shorter = &mut again[..length - 1];
    let short = write_page(screen, found, shorter) == Err(Refusal::ShortArea);
    Ok(short && found == cursor && second == length && area == again && area[length] == 0xee)
}
