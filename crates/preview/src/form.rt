// A host text from a file, carried out on a new screen and shown as a person would like to see it.
use codes::class::Class;
use codes::{ETX, SOH};
use host::carry::carry_out;
use host::state::State;
use picture::{fields, frame};
use screen::interface::Screen;
use std::error::Error;
use std::io;
use std::io::Write;
use stores::map_store::MapStore;
use stores::size::Size;
use thiserror::Error;

// A message keeps 6,000 characters: three addresses, STX, the text and ETX.
const LONGEST: usize = 5995;

// Why a file is no host text.
#[derive(Clone, Copy, PartialEq, Eq, Debug, Error)]
pub enum Unfit {
    // an octet that no text on a line has
    #[error("the octet {code:02X} at offset {offset} stands in no host text")]
    Octet { code: u8, offset: usize },
    // so many characters, fill left out
    #[error("{0} characters are too many: a message brings a text of at most 5995")]
    TooLong(usize),
}

fn is_foreign(code: u8) -> bool {
    code >= 0x80 || code == SOH || code == ETX
}

// The characters of a text that a line can bring.
#[derive(Clone, Copy)]
pub struct Form<'t>(&'t [u8]);

impl<'t> Form<'t> {
    pub fn new(text: &'t [u8]) -> Result<Form<'t>, Unfit> {
        if let Some((offset, code)) = text.iter().enumerate().find(|(_, code)| is_foreign(**code)) {
            return Err(Unfit::Octet {
                code: *code,
                offset,
            });
        }
        let kept = text
            .iter()
            .filter(|code| !matches!(Class::of(**code), Class::Fill))
            .count();
        if kept > LONGEST {
            return Err(Unfit::TooLong(kept));
        }
        Ok(Form(text))
    }

    // Carries the text out on a new screen of this size, and shows it.
    pub fn show<W: Write>(&self, out: &mut W, size: Size) -> io::Result<()> {
        let mut screen = MapStore::new(size);
        let mut state = State::new();
        let _ = carry_out(&mut screen, &mut state, self.0);
        frame::framed(out, &screen, state.cursor)?;
        frame::legend(out)?;
        status(out, &screen, &state)?;
        fields::table(out, &screen)
    }
}

// What stands beside the cells.
fn status<S: Screen, W: Write>(out: &mut W, screen: &S, state: &State) -> io::Result<()> {
    if let Ok((row, column)) = screen.split(state.cursor) {
        writeln!(out, "cursor: row {row}, column {column}")?;
    }
    if state.locked {
        out.write_all(b"the keyboard is locked\n")?;
    }
    if state.light {
        out.write_all(b"the message light is on\n")?;
    }
    if let Some(text) = state.held() {
        let length = text.len();
        writeln!(out, "a transmission of {length} characters is held")?;
    }
    Ok(())
}
