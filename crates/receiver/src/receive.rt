// The receiver's rules.
ghost use Rattle.std.specs.Prelude.{◌≡◌, ◌+◌, ◌<◌, ◌≤◌, [], ◌∷◌, ◌++◌, length};
ghost use Rattle.codes.specs.Classes.{class_of};
ghost use Rattle.receiver.specs.Check.{block_check};
ghost use Rattle.receiver.specs.Receiving.{State, idle, collecting, Next, step, count, collect, keep, close};
ghost use Rattle.receiver.specs.Meaning.{kept_of, state_of, message_of};

use crate::check::block_check;
use crate::fault::{Cause, Fault, ReceiverFault};
use crate::message::{Kept, Phase, Receiver};
use codes::class::Class;
use codes::{ETX, SOH};

// A message keeps at most so many characters.
const ROOM: usize = 6000;

// What a character or an octet brought: nothing to tell, the beginning of a message, or a whole message of so many
// characters. Nothing is one of three answers: an Option around two would only nest them.
#[derive(Clone, Copy, PartialEq, Eq, Debug)]
pub enum Event {
    Nothing,
    Begun,
    Message(usize),
}

impl Kept {
    // One character more.
    fn push(&mut self, character: u8)
        requires { self.old.len < 6000 }
        ensures holds { kept_of self.new ≡ kept_of self.old ++ (character ∷ []) }
        ensures longer { self.new.len ≡ self.old.len + 1 }
        ensures room { length self.new.characters ≡ 6000 }
    {
        self.characters[self.len] = character;
        self.len += 1;
    }

    fn all(&self) -> &[u8]
        requires { self.now.len ≤ 6000 }
        ensures { result.now ≡ kept_of self.now }
    {
        &self.characters[..self.len]
    }
}

impl Receiver {
    pub fn new() -> Receiver
        ensures state { state_of result ≡ idle }
        ensures message { message_of result ≡ [] }
    {
        Receiver {
            kept: Kept {
                characters: [0; 6000],
                len: 0,
            },
            phase: Phase::Idle,
        }
    }

    // How many characters are kept of an unfinished message.
    pub fn count(&self) -> usize
        ensures { result ≡ count (state_of self.now) }
    {
        match self.phase {
            Phase::Collecting | Phase::Awaiting => self.kept.len,
            Phase::Idle | Phase::Finished => 0,
        }
    }

    // The message that the last octet finished, ETX last; else nothing.
    pub fn message(&self) -> &[u8]
        ensures { result.now ≡ message_of self.now }
    {
        match self.phase {
            Phase::Finished => self.kept.all(),
            Phase::Idle | Phase::Collecting | Phase::Awaiting => &[],
        }
    }

    // One character.
    pub fn receive(&mut self, character: u8) -> Result<Event, Fault>
        ensures after { state_of self.new ≡ (step (state_of self.old) character).state }
        ensures message { message_of self.new ≡ (step (state_of self.old) character).message }
        ensures answers { result ≡ (step (state_of self.old) character).answer }
    {
        match self.phase {
            Phase::Awaiting => self.close(character),
            _ if character == SOH => Ok(self.begin()),
            Phase::Collecting => self.collect(character),
            Phase::Idle | Phase::Finished => {
                self.phase = Phase::Idle;
                Ok(Event::Nothing)
            }
        }
    }

    fn begin(&mut self) -> Event
        ensures after { state_of self.new ≡ collecting [] }
        ensures message { message_of self.new ≡ [] }
        ensures answers { result ≡ Event.Begun }
    {
        self.kept.len = 0;
        self.phase = Phase::Collecting;
        Event::Begun
    }

    // A character while collecting.
    fn collect(&mut self, character: u8) -> Result<Event, Fault>
        requires { self.old.phase ≡ Phase.Collecting }
        ensures after { state_of self.new ≡ (collect (class_of character) (kept_of self.old.kept) character).state }
        ensures message { message_of self.new ≡ (collect (class_of character) (kept_of self.old.kept) character).message }
        ensures answers { result ≡ (collect (class_of character) (kept_of self.old.kept) character).answer }
    {
        if Class::of(character) == Class::Fill {
            return Ok(Event::Nothing);
        }
        self.keep(character)
    }

    fn keep(&mut self, character: u8) -> Result<Event, Fault>
        ensures after { state_of self.new ≡ (keep (kept_of self.old.kept) character).state }
        ensures message { message_of self.new ≡ (keep (kept_of self.old.kept) character).message }
        ensures answers { result ≡ (keep (kept_of self.old.kept) character).answer }
    {
        if self.kept.len >= ROOM {
            return Err(self.refuse(ReceiverFault::TooLong));
        }
        self.kept.push(character);
        self.phase = if character == ETX {
            Phase::Awaiting
        } else {
            Phase::Collecting
        };
        Ok(Event::Nothing)
    }

    // The block check.
    fn close(&mut self, character: u8) -> Result<Event, Fault>
        ensures after { state_of self.new ≡ (close (kept_of self.old.kept) character).state }
        ensures message { message_of self.new ≡ (close (kept_of self.old.kept) character).message }
        ensures answers { result ≡ (close (kept_of self.old.kept) character).answer }
    {
        if character != block_check(self.kept.all()) {
            return Err(self.refuse(ReceiverFault::BlockCheck));
        }
        self.phase = Phase::Finished;
        Ok(Event::Message(self.kept.len))
    }

    // A refusal drops the message.
    fn refuse(&mut self, fault: ReceiverFault) -> Fault
        ensures after { state_of self.new ≡ idle }
        ensures message { message_of self.new ≡ [] }
        ensures says { result ≡ record { cause = Cause.Receiver fault; kept = length (kept_of self.old.kept) } }
    {
        self.phase = Phase::Idle;
        Fault {
            cause: Cause::Receiver(fault),
            kept: self.kept.len,
        }
    }
}
