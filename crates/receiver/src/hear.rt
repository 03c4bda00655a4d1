// A receiver behind any line.
ghost use Rattle.std.specs.Prelude.{◌≡◌, []};
ghost use Rattle.line.specs.Octet.{wanted};
ghost use Rattle.receiver.specs.Meaning.{state_of, message_of};
ghost use Rattle.receiver.specs.Hearing.{hear, noted, counted};

use crate::fault::{BadOctet, Fault};
use crate::message::{Phase, Receiver};
use crate::receive::Event;
use line::{Line, LineFault};

impl Receiver {
    // What the line gave. A bad octet drops the message, and its fault takes the count of characters kept along.
    fn note(&mut self, given: Result<Option<u8>, LineFault>) -> Result<Option<u8>, BadOctet>
        ensures after { state_of self.new ≡ noted given (state_of self.old) }
        ensures message { message_of self.new ≡ [] }
        ensures answers { result ≡ counted given (state_of self.old) }
    {
        let kept = self.count();
        if given.is_err() || self.phase == Phase::Finished {
            self.phase = Phase::Idle;
        }
        given.map_err(|fault| BadOctet { fault, kept })
    }

    // One octet from the line.
    pub fn hear<L: Line>(&mut self, line: &mut L, octet: u8) -> Result<Event, Fault>
        ensures line { L.Line.wants line.new ≡ wanted L.Line.kind (L.Line.wants line.old) octet }
        ensures after { state_of self.new ≡ (hear L.Line.kind (L.Line.wants line.old) (state_of self.old) octet).state }
        ensures message { message_of self.new ≡ (hear L.Line.kind (L.Line.wants line.old) (state_of self.old) octet).message }
        ensures answers { result ≡ (hear L.Line.kind (L.Line.wants line.old) (state_of self.old) octet).answer }
    {
        match self.note(line.take(octet))? {
            Some(character) => self.receive(character),
            None => Ok(Event::Nothing),
        }
    }
}
