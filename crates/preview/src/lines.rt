// The lines of a script that speak of a screen.
use crate::line::Line;
use crate::session::Session;
use host::carry::carry_out;
use host::state::State;
use picture::cells::Shown;
use picture::plain;
use script::error::{Problem, RunError};
use script::words::Words;
use stack::lowest::Stacked;
use std::io;
use std::io::{Read, Write};
use std::ops::ControlFlow;

// A screen, and what stands beside it.
#[derive(Drop)]
pub struct OnScreen<'s, S, W> {
    pub screen: &'s mut S,
    pub state: State,
    pub session: &'s mut Session<W>,
}

impl<'s, S: Stacked, W: Write> OnScreen<'s, S, W> {
    // The lines up to the next screen's.
    pub fn lines<R: Read>(&mut self, words: &mut Words<R>) -> Result<(), RunError> {
        words.lines(|words| self.line(words))?;
        Ok(())
    }

    // One line, from its first word on; it breaks at the next screen's.
    fn line<R: Read>(&mut self, words: &mut Words<R>) -> Result<ControlFlow<()>, RunError> {
        match Line::begun(words)? {
            Line::Screen => return Ok(ControlFlow::Break(())),
            Line::Text => self.text(words)?,
            Line::Read => self.read(words)?,
            Line::Write => self.write(words)?,
            Line::Remove => {
                let row = self.session.last_number(words, "remove")?;
                self.session.done(self.screen.remove_row(row))?;
            }
            Line::Insert => {
                let row = self.session.last_number(words, "insert")?;
                self.session.done(self.screen.insert_row(row))?;
            }
            Line::Show => self.show(words)?,
            Line::Below => self.below(words)?,
            Line::PageWrite => self.write_page(words)?,
            Line::PageRead => self.read_page(words)?,
        }
        Ok(ControlFlow::Continue(()))
    }

    fn text<R: Read>(&mut self, words: &mut Words<R>) -> Result<(), RunError> {
        let characters = self.session.octets(words)?;
        let taken_up = carry_out(self.screen, &mut self.state, characters.as_slice());
        let taken = taken_up as u8;
        writeln!(self.session.out, "text ok {taken}")?;
        Ok(())
    }

    fn read<R: Read>(&mut self, words: &mut Words<R>) -> Result<(), RunError> {
        let place = self.session.last_number(words, "read")?;
        match self.screen.read(place) {
            Ok((code, protected)) => {
                let mark = protected as u8;
                writeln!(self.session.out, " ok {code:02X} {mark}")?;
            }
            Err(refusal) => self.session.refused(&refusal)?,
        }
        Ok(())
    }

    fn write<R: Read>(&mut self, words: &mut Words<R>) -> Result<(), RunError> {
        let place = words.next_number()?;
        let place_word = *words.word();
        let Some(code) = words.next_octet()? else {
            return Err(words.error(Problem::NoOctet));
        };
        let code_word = *words.word();
        let protected = mark(words)?;
        let bit = protected as u8;
        words.end_line()?;
        write!(self.session.out, "write {place_word} {code_word} {bit}")?;
        self.session
            .done(self.screen.write(place, code, protected))?;
        Ok(())
    }

    fn show<R: Read>(&mut self, words: &mut Words<R>) -> Result<(), RunError> {
        words.end_line()?;
        self.session.out.write_all(b"show\n")?;
        plain::rows(&mut self.session.out, &Shown(self.screen))?;
        let cursor = self.state.cursor;
        let lock = self.state.locked as u8;
        let light = self.state.light as u8;
        write!(
            self.session.out,
            "cursor {cursor}\nlock {lock}\nlight {light}\nheld "
        )?;
        self.held()?;
        self.session.out.write_all(b"end\n")?;
        Ok(())
    }

    // The held text, if there is one.
    fn held(&mut self) -> io::Result<()> {
        let Some(text) = self.state.held() else {
            return self.session.out.write_all(b"-\n");
        };
        let length = text.len();
        write!(self.session.out, "{length}")?;
        self.session.octets_end(text)
    }

    fn below<R: Read>(&mut self, words: &mut Words<R>) -> Result<(), RunError> {
        words.end_line()?;
        self.session.out.write_all(b"below\n")?;
        plain::rows(&mut self.session.out, &Shown(self.screen.lowest()))?;
        self.session.out.write_all(b"end\n")?;
        Ok(())
    }
}

// A protection mark, 0 or 1.
fn mark<R: Read>(words: &mut Words<R>) -> Result<bool, RunError> {
    words.next()?;
    match words.word().bytes() {
        b"0" => Ok(false),
        b"1" => Ok(true),
        _ => Err(words.error(Problem::NoMark)),
    }
}
