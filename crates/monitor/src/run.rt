// A script: captures one after the other.
use crate::octets::sent;
use crate::report::Report;
use capture::watch::Capture;
use line::Line;
use line::asynchronous::AsyncLine;
use line::synchronous::SyncLine;
use script::error::{Problem, RunError};
use script::words::Words;
use std::io::{Read, Write};
use std::ops::ControlFlow;

// Reads the script to its end, with a report of each capture.
pub fn run<P: Report + Drop, R: Read + Drop, W: Write>(
    reader: R,
    out: &mut W,
) -> Result<(), RunError> {
    let mut words = Words::new(reader);
    words.lines(|words| first::<P, R, W>(words, out))?;
    Ok(())
}

// A line that stands in no capture.
fn first<P: Report + Drop, R: Read, W: Write>(
    words: &mut Words<R>,
    out: &mut W,
) -> Result<ControlFlow<()>, RunError> {
    match words.word().bytes() {
        b"monitor" => monitor::<P, R, W>(words, out)?,
        b"octets" | b"send" => return Err(words.error(Problem::NoLineYet)),
        _ => return Err(words.error(Problem::UnknownLine)),
    }
    Ok(ControlFlow::Continue(()))
}

// A capture on a line of the kind that `monitor` names.
fn monitor<P: Report + Drop, R: Read, W: Write>(
    words: &mut Words<R>,
    out: &mut W,
) -> Result<(), RunError> {
    words.next()?;
    match words.word().bytes() {
        b"sync" => capture::<SyncLine, P, R, W>(words, out),
        b"async" => capture::<AsyncLine, P, R, W>(words, out),
        _ => Err(words.error(Problem::NoLineKind)),
    }
}

// A capture on a new line, up to the next `monitor`.
fn capture<L: Line + Drop, P: Report + Drop, R: Read, W: Write>(
    words: &mut Words<R>,
    out: &mut W,
) -> Result<(), RunError> {
    words.end_line()?;
    let mut capture = Capture::<L>::new();
    let mut report = P::begin(out)?;
    words.lines(|words| line(words, out, &mut capture, &mut report))?;
    report.end(out, &capture)?;
    Ok(())
}

// A line of a capture, which breaks at the next one's.
fn line<L: Line, P: Report, R: Read, W: Write>(
    words: &mut Words<R>,
    out: &mut W,
    capture: &mut Capture<L>,
    report: &mut P,
) -> Result<ControlFlow<()>, RunError> {
    match words.word().bytes() {
        b"monitor" => return Ok(ControlFlow::Break(())),
        b"octets" => {
            for octet in words.octets() {
                report.hear(out, capture, octet?)?;
            }
        }
        b"send" => {
            for code in words.octets() {
                let code = code?;
                sent(out, code, capture.send(code))?;
            }
        }
        _ => return Err(words.error(Problem::UnknownLine)),
    }
    Ok(ControlFlow::Continue(()))
}
