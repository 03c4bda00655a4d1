// One line for each octet.
use crate::report::Report;
use capture::watch::Capture;
use line::Line;
use numbered::Numbered;
use receiver::fault::Cause;
use receiver::receive::Event;
use script::hex;
use std::io;
use std::io::Write;

// Each code as two digits after a space.
pub fn codes<W: Write>(out: &mut W, codes: &[u8]) -> io::Result<()> {
    for code in codes {
        let [high, low] = hex::digits(*code);
        out.write_all(&[b' ', high, low])?;
    }
    Ok(())
}

// The layer that refused; a type of one's own with a Display would say no more.
pub fn layer(cause: &Cause) -> &'static str {
    match cause {
        Cause::Line(_) => "line",
        Cause::Receiver(_) => "receiver",
    }
}

// Each octet, with what it brought.
#[derive(Clone, Copy)]
pub struct Octets;

impl Report for Octets {
    fn begin<W: Write>(out: &mut W) -> io::Result<Octets> {
        out.write_all(b"monitor ok\n")?;
        Ok(Octets)
    }

    fn hear<L: Line, W: Write>(
        &mut self,
        out: &mut W,
        capture: &mut Capture<L>,
        octet: u8,
    ) -> io::Result<()> {
        out.write_all(b"octet")?;
        codes(out, &[octet])?;
        match capture.hear(octet) {
            Ok(Event::Nothing | Event::Begun) => out.write_all(b" nothing\n"),
            Ok(Event::Message(_)) => {
                out.write_all(b" message")?;
                codes(out, capture.message())?;
                out.write_all(b"\n")
            }
            Err(fault) => {
                let number = fault.cause.number();
                let layer = layer(&fault.cause);
                let kept = fault.kept;
                writeln!(out, " refused {number} {layer} {kept}")
            }
        }
    }

    fn end<L: Line, W: Write>(&self, _out: &mut W, _capture: &Capture<L>) -> io::Result<()> {
        Ok(())
    }
}

// The octet that is sent for a code.
pub fn sent<W: Write>(out: &mut W, code: u8, octet: u8) -> io::Result<()> {
    out.write_all(b"send")?;
    codes(out, &[code, octet])?;
    out.write_all(b"\n")
}
