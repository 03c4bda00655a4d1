// One line for each message or fault of a capture, and a summary.
use crate::octets::{codes, layer};
use crate::report::Report;
use capture::content::Reply;
use capture::watch::Capture;
use codes::BEL;
use line::Line;
use message::Form;
use numbered::Numbered;
use receiver::fault::{Cause, Fault, ReceiverFault};
use receiver::receive::Event;
use std::io;
use std::io::Write;

// How many messages and faults were listed.
#[derive(Clone, Copy, Default)]
pub struct Listing {
    messages: u64,
    faults: u64,
}

impl Report for Listing {
    fn begin<W: Write>(_out: &mut W) -> io::Result<Listing> {
        Ok(Listing::default())
    }

    fn hear<L: Line, W: Write>(
        &mut self,
        out: &mut W,
        capture: &mut Capture<L>,
        octet: u8,
    ) -> io::Result<()> {
        match capture.hear(octet) {
            Ok(Event::Message(_)) => self.message(out, capture.begun(), capture.message()),
            Ok(Event::Nothing | Event::Begun) => Ok(()),
            Err(fault) => self.fault(out, capture.begun(), &fault),
        }
    }

    // The summary of a capture, in which a message may be unfinished.
    fn end<L: Line, W: Write>(&self, out: &mut W, capture: &Capture<L>) -> io::Result<()> {
        let octets = capture.octets();
        let messages = self.messages;
        let faults = self.faults;
        write!(
            out,
            "summary octets {octets} messages {messages} faults {faults}"
        )?;
        if let Some(offset) = capture.unfinished() {
            let kept = capture.kept();
            write!(out, " unfinished offset {offset} kept {kept}")?;
        }
        out.write_all(b"\n")
    }
}

impl Listing {
    // The number of the next message or fault, and the offset of its SOH.
    fn head<W: Write>(&self, out: &mut W, begun: Option<u64>) -> io::Result<()> {
        let number = self.messages.saturating_add(self.faults).saturating_add(1);
        match begun {
            Some(offset) => write!(out, "{number} offset {offset}"),
            None => write!(out, "{number} offset -"),
        }
    }

    fn message<W: Write>(
        &mut self,
        out: &mut W,
        begun: Option<u64>,
        characters: &[u8],
    ) -> io::Result<()> {
        self.head(out, begun)?;
        self.messages = self.messages.saturating_add(1);
        match characters.split_at_checked(3) {
            Some((station, tail)) if !tail.is_empty() => {
                out.write_all(b" station")?;
                codes(out, station)?;
                content(out, tail)?;
            }
            _ => {
                out.write_all(b" codes")?;
                codes(out, characters)?;
            }
        }
        out.write_all(b"\n")
    }

    fn fault<W: Write>(
        &mut self,
        out: &mut W,
        begun: Option<u64>,
        fault: &Fault,
    ) -> io::Result<()> {
        self.head(out, begun)?;
        self.faults = self.faults.saturating_add(1);
        let number = fault.cause.number();
        let layer = layer(&fault.cause);
        let kept = fault.kept;
        let why = match fault.cause {
            Cause::Line(_) => "bad parity",
            Cause::Receiver(ReceiverFault::TooLong) => "too long",
            Cause::Receiver(ReceiverFault::BlockCheck) => "wrong block check",
        };
        writeln!(out, " fault {number} {layer} kept {kept}: {why}")
    }
}

// What stands after the addresses.
fn content<W: Write>(out: &mut W, tail: &[u8]) -> io::Result<()> {
    if let Some(form) = Form::read(tail) {
        return from_host(out, form);
    }
    if let Some(reply) = Reply::read(tail) {
        return from_station(out, reply);
    }
    out.write_all(b" codes")?;
    codes(out, tail)
}

fn from_host<W: Write>(out: &mut W, form: Form<'_>) -> io::Result<()> {
    match form {
        Form::Poll => out.write_all(b" poll"),
        Form::PollAcknowledge => out.write_all(b" poll with acknowledgement"),
        Form::Repeat => out.write_all(b" repeat request"),
        Form::Text(characters) => text(out, characters),
    }
}

fn from_station<W: Write>(out: &mut W, reply: Reply<'_>) -> io::Result<()> {
    match reply {
        Reply::Enquiry => out.write_all(b" DLE ENQ"),
        Reply::Call(code) => call(out, code),
        Reply::AcknowledgedCall(code) => {
            out.write_all(b" acknowledgement and")?;
            call(out, code)
        }
        Reply::AcknowledgedText(characters) => {
            out.write_all(b" acknowledgement and")?;
            text(out, characters)
        }
    }
}

fn call<W: Write>(out: &mut W, code: u8) -> io::Result<()> {
    out.write_all(b" call")?;
    codes(out, &[code])?;
    out.write_all(match code {
        BEL => b" (MESSAGE WAIT)",
        b'7' => b" (function key 1)",
        b'G' => b" (function key 2)",
        b'W' => b" (function key 3)",
        _ => b" (function key 4)",
    })
}

// A text in quotes. A backslash stands before a quote, a backslash and the two digits of a code that does not print.
fn text<W: Write>(out: &mut W, characters: &[u8]) -> io::Result<()> {
    let count = characters.len();
    let plural = if count == 1 { "" } else { "s" };
    write!(out, " text of {count} character{plural} \"")?;
    for character in characters {
        match *character {
            b'"' | b'\\' => out.write_all(&[b'\\', *character])?,
            0x20..=0x7e => out.write_all(&[*character])?,
            code => {
                let [high, low] = script::hex::digits(code);
                out.write_all(&[b'\\', high, low])?;
            }
        }
    }
    out.write_all(b"\"")
}
