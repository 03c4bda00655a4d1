// The octets of a reader, one by one, with a fixed amount of memory.
ghost use Rattle.std.specs.Prelude.{◌<◌, ◌≤◌, IfOk, OnSome};

use std::io;
use std::io::{Read, Take};
use std::marker::Model;

const CHUNK: usize = 65536;

// The octets buffer[at..end] are read and not yet taken. Memory is fixed, so this is no BufReader.
#[derive(Drop)]
pub struct Input<R> {
    reader: Take<R>,
    buffer: [u8; CHUNK],
    at: usize,
    end: usize,
}

// Clauses see how many octets may still come.
impl<R> Model for Input<R> {
    ghost use Rattle.std.specs.Prelude.{ℕ, ◌+◌, ◌-◌, ◌≤◌};
    ghost use Rattle.std.specs.Io.Take.{take_limit};

    ghost Value = { ℕ };

    ghost view = { λ i. take_limit i.reader + (i.end - i.at) };

    ghost invariant = { λ i. (i.at ≤ i.end) × (i.end ≤ 65536) };
}

impl<R: Read> Input<R> {
    pub fn new(reader: R) -> Input<R> {
        Input {
            reader: reader.take(u64::MAX),
            buffer: [0; CHUNK],
            at: 0,
            end: 0,
        }
    }

    // Reads on where all octets are taken. At an end the reader is asked again by the next call: at a terminal more may come.
    fn fill(&mut self) -> io::Result<()>
        ensures { self.new ≤ self.old }
    {
        if self.at == self.end {
            self.at = 0;
            self.end = 0;
            self.end = self.reader.read(&mut self.buffer)?;
        }
        Ok(())
    }

    // Takes the next octet, if there is one and it fits.
    pub fn next_if<F: FnOnce(u8) -> bool>(&mut self, fits: F) -> io::Result<Option<u8>>
        requires { F.IsAlwaysCallable fits }
        ensures fewer { IfOk result (λ next. OnSome next (self.new < self.old)) }
        ensures kept { self.new ≤ self.old }
    {
        self.fill()?;
        match self.buffer[self.at..self.end].first() {
            Some(octet) if fits(*octet) => {
                let octet = *octet;
                self.at += 1;
                Ok(Some(octet))
            }
            _ => Ok(None),
        }
    }

    // Takes the octets that fit, and the one behind them, which it answers, or none at an end.
    pub fn next_behind<F: Fn(u8) -> bool>(&mut self, fits: F) -> io::Result<Option<u8>>
        requires { F.IsAlwaysCallable fits }
        ensures fewer { IfOk result (λ next. OnSome next (self.new < self.old)) }
        ensures kept { self.new ≤ self.old }
    {
        while let Some(octet) = self.next_if(|_| true)? {
            if !fits(octet) {
                return Ok(Some(octet));
            }
        }
        Ok(None)
    }
}
