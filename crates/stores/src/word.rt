ghost use Rattle.std.specs.Prelude.{◌≡◌, Bool};
ghost use Rattle.screen.specs.Answers.{parts};
ghost use Rattle.stores.specs.Words.{word_of, cell_of};

// The word of a cell: the character in its low eight bits, the protection mark in the bit above.
pub(crate) fn word_of(code: u8, mark: bool) -> u16
    ensures { result ≡ word_of code mark }
{
    u16::from(code) | u16::from(mark) << 8
}

// The character and the mark in a word.
pub(crate) fn parts_of(word: u16) -> (u8, bool)
    ensures { result ≡ parts (cell_of word) }
{
    ((word & 0xff) as u8, (word >> 8) & 1 == 1)
}
