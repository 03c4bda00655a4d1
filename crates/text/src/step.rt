// One step of a host text.
#[derive(Clone, Copy, PartialEq, Eq, Debug)]
pub enum Step<'a> {
    // data characters: a part of the text, with its place there
    Run(&'a [u8], usize),
    // ESC VT Y X SI: the row and the column, counted from 0
    Address(u8, u8),
    // ESC and the code after it
    Escape(char),
    // any other code, 80 to FF too
    Control(u8),
    // an address that is broken off, or ESC at the text's end: it does nothing,
    // but is a step, since it takes characters
    Broken,
}
