// The lines of a script, by their first words.
use script::error::{Problem, RunError};
use script::words::Words;
use std::io::Read;

// A new screen, or what is asked of one.
#[derive(Clone, Copy)]
pub enum Line {
    Screen,
    Text,
    Read,
    Write,
    Remove,
    Insert,
    Show,
    Below,
    PageWrite,
    PageRead,
}

impl Line {
    // The line that begins with the last word.
    pub fn begun<R: Read>(words: &Words<R>) -> Result<Line, RunError> {
        Ok(match words.word().bytes() {
            b"screen" => Line::Screen,
            b"text" => Line::Text,
            b"read" => Line::Read,
            b"write" => Line::Write,
            b"remove" => Line::Remove,
            b"insert" => Line::Insert,
            b"show" => Line::Show,
            b"below" => Line::Below,
            b"pagewrite" => Line::PageWrite,
            b"pageread" => Line::PageRead,
            _ => return Err(words.error(Problem::UnknownLine)),
        })
    }
}
