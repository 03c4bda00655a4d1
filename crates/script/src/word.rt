// One word of a script.
ghost use Rattle.std.specs.Prelude.{◌≡◌, ◌≤◌, [], ◌∷◌, ◌++◌, length, take, if◌then◌else◌, nat_lt};

use std::fmt;

// Longer words are cut here, and are no word that a script knows.
const LONGEST: usize = 64;

// The characters in the first len places: words are copied, which no vector is.
#[derive(Clone, Copy, Debug)]
pub struct Word {
    characters: [u8; LONGEST],
    len: usize,
    ghost fits: { len ≤ 64 },
    ghost room: { length characters ≡ 64 },
}

impl Word {
    pub fn new() -> Word
        ensures { take result.len result.characters ≡ [] }
    {
        Word {
            characters: [0; LONGEST],
            len: 0,
        }
    }

    // One character more, while the word is no longer than 64.
    pub fn push(&mut self, character: u8)
        ensures { take self.new.len self.new.characters ≡ (if nat_lt self.old.len 64 then take self.old.len self.old.characters ++ (character ∷ []) else take self.old.len self.old.characters) }
    {
        if self.len < LONGEST {
            self.characters[self.len] = character;
            self.len += 1;
        }
    }

    pub fn bytes(&self) -> &[u8]
        ensures { result.now ≡ take self.now.len self.now.characters }
    {
        &self.characters[0..self.len]
    }
}

// The word as a person can read it: what is not printable is shown by its code.
impl fmt::Display for Word {
    fn fmt<W: fmt::Write>(&self, f: &mut fmt::Formatter<W>) -> fmt::Result {
        for character in self.bytes() {
            match *character {
                0x20..=0x7e => write!(f, "{}", *character as char)?,
                code => write!(f, "<{code:02X}>")?,
            }
        }
        Ok(())
    }
}
