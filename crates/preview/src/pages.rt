// The lines of a script that keep a screen as a page.
use crate::lines::OnScreen;
use page::read::read_page;
use page::write::write_page;
use script::error::RunError;
use script::words::Words;
use stack::lowest::Stacked;
use std::io;
use std::io::{Read, Write};

// No page is longer, so an area of more octets need not be made.
const MOST: usize = 4096;

impl<'s, S: Stacked, W: Write> OnScreen<'s, S, W> {
    // Writes the screen into an area of so many octets, and prints the page.
    pub fn write_page<R: Read>(&mut self, words: &mut Words<R>) -> Result<(), RunError> {
        let length = words.next_number()?;
        let length_word = *words.word();
        let cursor = words.next_number()?;
        let cursor_word = *words.word();
        words.end_line()?;
        let mut area = vec![in self.session.heap; 0u8; length.min(MOST)]?;
        write!(self.session.out, "pagewrite {length_word} {cursor_word}")?;
        match write_page(self.screen, cursor, &mut area) {
            Ok(count) => {
                write!(self.session.out, " ok {count}")?;
                self.session.octets_end(&area[..count])?;
            }
            Err(refusal) => self.session.refused(&refusal)?,
        }
        Ok(())
    }

    // Reads the page in the rest of the line into the screen.
    pub fn read_page<R: Read>(&mut self, words: &mut Words<R>) -> Result<(), RunError> {
        let octets = self.session.octets(words)?;
        self.session.out.write_all(b"pageread")?;
        match read_page(octets.as_slice(), self.screen) {
            Ok(cursor) => writeln!(self.session.out, " ok {cursor}")?,
            Err(refusal) => self.session.refused(&refusal)?,
        }
        Ok(())
    }
}
