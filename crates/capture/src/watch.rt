// A line with a receiver behind it, and the place of each message in the capture.
ghost use Rattle.std.specs.Prelude.{◌≡◌, ◌%◌, []};
ghost use Rattle.line.specs.Kind.{Kind};
ghost use Rattle.line.specs.Octet.{wanted};
ghost use Rattle.receiver.specs.Receiving.{State, idle, count, Next};
ghost use Rattle.receiver.specs.Meaning.{state_of, message_of};
ghost use Rattle.receiver.specs.Hearing.{hear};
ghost use Rattle.capture.specs.Offsets.{Place, placed, new_place, begun, under_way};
ghost use Rattle.capture.specs.Meaning.{place_of};

use line::Line;
use receiver::fault::Fault;
use receiver::message::Receiver;
use receiver::receive::Event;

// The message to which the last octet belongs, by the offset of its SOH: it is under way, or that octet finished or
// dropped it. Between two messages an octet belongs to none.
#[derive(Clone, Copy, PartialEq, Eq, Debug)]
pub enum Standing {
    Between,
    UnderWay(u64),
    Over(u64),
}

// How many octets there were, and the message of the last one.
#[derive(Clone, Copy)]
pub struct Offsets {
    octets: u64,
    message: Standing,
}

impl Offsets {
    fn new() -> Offsets
        ensures { place_of result ≡ new_place }
    {
        Offsets {
            octets: 0,
            message: Standing::Between,
        }
    }

    // One octet more, which was answered so.
    fn count(&mut self, answer: Result<Event, Fault>)
        ensures { place_of self.new ≡ placed answer (place_of self.old) }
    {
        self.message = match (answer, self.message) {
            (Ok(Event::Begun), _) => Standing::UnderWay(self.octets),
            (Ok(Event::Nothing), Standing::UnderWay(at)) => Standing::UnderWay(at),
            (Ok(Event::Message(_)) | Err(_), Standing::UnderWay(at)) => Standing::Over(at),
            (_, Standing::Between | Standing::Over(_)) => Standing::Between,
        };
        self.octets = self.octets.saturating_add(1);
    }
}

#[derive(Drop)]
pub struct Capture<L> {
    line: L,
    receiver: Receiver,
    offsets: Offsets,
}

impl<L: Line> Capture<L> {
    // A capture from a new line.
    pub fn new() -> Capture<L>
        ensures line { L.Line.wants result.line ≡ L.Line.kind.full }
        ensures state { state_of result.receiver ≡ idle }
        ensures message { message_of result.receiver ≡ [] }
        ensures place { place_of result.offsets ≡ new_place }
    {
        Capture {
            line: L::new(),
            receiver: Receiver::new(),
            offsets: Offsets::new(),
        }
    }

    // One octet from the line.
    pub fn hear(&mut self, octet: u8) -> Result<Event, Fault>
        ensures line { L.Line.wants self.new.line ≡ wanted L.Line.kind (L.Line.wants self.old.line) octet }
        ensures after { state_of self.new.receiver ≡ (hear L.Line.kind (L.Line.wants self.old.line) (state_of self.old.receiver) octet).state }
        ensures message { message_of self.new.receiver ≡ (hear L.Line.kind (L.Line.wants self.old.line) (state_of self.old.receiver) octet).message }
        ensures answers { result ≡ (hear L.Line.kind (L.Line.wants self.old.line) (state_of self.old.receiver) octet).answer }
        ensures place { place_of self.new.offsets ≡ placed result (place_of self.old.offsets) }
    {
        let answer = self.receiver.hear(&mut self.line, octet);
        self.offsets.count(answer);
        answer
    }

    // The message that the last octet finished, ETX last; else nothing.
    pub fn message(&self) -> &[u8]
        ensures { result.now ≡ message_of self.now.receiver }
    {
        self.receiver.message()
    }

    // How many octets there were.
    pub fn octets(&self) -> u64
        ensures { result ≡ (place_of self.now.offsets).octets }
    {
        self.offsets.octets
    }

    // The offset of the SOH of the message that the last octet belongs to.
    pub fn begun(&self) -> Option<u64>
        ensures { result ≡ begun (place_of self.now.offsets).message }
    {
        match self.offsets.message {
            Standing::Between => None,
            Standing::UnderWay(at) | Standing::Over(at) => Some(at),
        }
    }

    // The offset of the SOH of the message that is not yet over.
    pub fn unfinished(&self) -> Option<u64>
        ensures { result ≡ under_way (place_of self.now.offsets).message }
    {
        match self.offsets.message {
            Standing::UnderWay(at) => Some(at),
            Standing::Between | Standing::Over(_) => None,
        }
    }

    // How many characters are kept of it.
    pub fn kept(&self) -> usize
        ensures { result ≡ count (state_of self.now.receiver) }
    {
        self.receiver.count()
    }

    // The octet that this line sends for a code.
    pub fn send(&self, code: u8) -> u8
        ensures { result ≡ L.Line.kind.octet (code % 128) }
    {
        self.line.encode(code)
    }
}
