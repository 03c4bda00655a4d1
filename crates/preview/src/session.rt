// A script: screens one after the other, and what is done on each.
use crate::line::Line;
use crate::lines::OnScreen;
use host::state::State;
use numbered::Numbered;
use script::error::{Problem, RunError};
use script::hex;
use script::words::Words;
use stack::build::{BuildError, Visitor, build};
use stack::lowest::Stacked;
use stack::parse;
use std::alloc::Global;
use std::io;
use std::io::{Read, Write};
use std::ops::ControlFlow;

// What stands beside a script's words: the heap, and what is written.
#[derive(Drop)]
pub struct Session<W> {
    pub heap: Global,
    pub out: W,
}

// Reads the script to its end, and writes all that it brings.
pub fn run<R: Read + Drop, W: Write + Drop>(
    heap: Global,
    reader: R,
    out: W,
) -> Result<(), RunError> {
    let mut words = Words::new(reader);
    let mut session = Session { heap, out };
    let outcome = words.lines(|words| first(words, &mut session));
    session.out.flush()?;
    outcome?;
    Ok(())
}

// A line before any screen, or one that makes a screen. Page lines are unknown without one.
fn first<R: Read, W: Write>(
    words: &mut Words<R>,
    session: &mut Session<W>,
) -> Result<ControlFlow<()>, RunError> {
    match Line::begun(words)? {
        Line::Screen => screen(words, session)?,
        Line::PageWrite | Line::PageRead => return Err(words.error(Problem::UnknownLine)),
        _ => return Err(words.error(Problem::NoScreenYet)),
    }
    Ok(ControlFlow::Continue(()))
}

// A screen with its lines, up to the next `screen`.
fn screen<R: Read, W: Write>(
    words: &mut Words<R>,
    session: &mut Session<W>,
) -> Result<(), RunError> {
    let stack = parse::stack(words)?;
    match build(session.heap, &stack, &mut Visit { words, session }) {
        Ok(outcome) => outcome,
        Err(BuildError::Refused(refusal)) => {
            session.out.write_all(b"screen")?;
            session.refused(&refusal)?;
            words.lines(|words| passed_over(words))?;
            Ok(())
        }
        Err(BuildError::OutOfMemory) => {
            Err(RunError::Io(io::Error::from(io::ErrorKind::OutOfMemory)))
        }
    }
}

// A line after a refused screen, which prints nothing. Page lines are unknown here too.
fn passed_over<R: Read>(words: &mut Words<R>) -> Result<ControlFlow<()>, RunError> {
    match Line::begun(words)? {
        Line::Screen => return Ok(ControlFlow::Break(())),
        Line::PageWrite | Line::PageRead => return Err(words.error(Problem::UnknownLine)),
        _ => words.skip_line()?,
    }
    Ok(ControlFlow::Continue(()))
}

// The lines for the screen that is being built.
#[derive(Drop)]
struct Visit<'v, R, W> {
    words: &'v mut Words<R>,
    session: &'v mut Session<W>,
}

impl<'v, R: Read, W: Write> Visitor for Visit<'v, R, W> {
    type Answer = Result<(), RunError>;

    fn visit<S: Stacked>(&mut self, screen: &mut S) -> Result<(), RunError> {
        self.session.out.write_all(b"screen ok\n")?;
        let mut on_screen = OnScreen {
            screen,
            state: State::new(),
            session: self.session,
        };
        on_screen.lines(self.words)
    }
}

impl<W: Write> Session<W> {
    // The number that ends a line; the answer begins by repeating both.
    pub fn last_number<R: Read>(
        &mut self,
        words: &mut Words<R>,
        line: &str,
    ) -> Result<usize, RunError> {
        let number = words.next_number()?;
        let named = *words.word();
        words.end_line()?;
        write!(self.out, "{line} {named}")?;
        Ok(number)
    }

    // The octets of the rest of the line.
    pub fn octets<R: Read>(&self, words: &mut Words<R>) -> Result<Vec<u8>, RunError> {
        words.octets().try_collect(self.heap)
    }

    // The end of an answer: octets.
    pub fn octets_end(&mut self, octets: &[u8]) -> io::Result<()> {
        for octet in octets {
            let [high, low] = hex::digits(*octet);
            self.out.write_all(&[b' ', high, low])?;
        }
        self.out.write_all(b"\n")
    }

    // The end of an answer: whether a call was refused.
    pub fn done<N: Numbered + Drop>(&mut self, outcome: Result<(), N>) -> io::Result<()> {
        match outcome {
            Ok(()) => self.out.write_all(b" ok\n"),
            Err(refusal) => self.refused(&refusal),
        }
    }

    // The end of an answer: the number of a refusal.
    pub fn refused<N: Numbered>(&mut self, refusal: &N) -> io::Result<()> {
        let number = refusal.number();
        writeln!(self.out, " refused {number} - -")
    }
}
