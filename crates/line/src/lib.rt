// A line turns characters, 00 to 7F, into octets and back.
#![tactic(auto)]

ghost use Rattle.std.specs.Prelude.{◌≡◌, ℕ, ◌%◌};
ghost use Rattle.line.specs.Kind.{Kind, GivesBack, DetectsOneBit, LeadFits, InRange};
ghost use Rattle.line.specs.Octet.{wanted, given};

pub mod asynchronous;
mod parity;
pub mod synchronous;

// What is wrong with an octet, by the number of its refusal.
#[derive(Clone, Copy, PartialEq, Eq, Debug)]
pub enum LineFault {
    Parity = 7,
}

pub trait Line: Sized {
    // what this kind of line fixes
    ghost kind: { Kind };

    // how many lead octets the line still wants; 0 is "in step"
    ghost wants: { Self → ℕ };

    // A new line wants its full number.
    fn new() -> Self
        ensures { wants result ≡ kind.full };

    // How many SYN octets bring a new line into step.
    fn full_number() -> usize
        ensures { result ≡ kind.full };

    // How many SYN octets stand before a reply.
    fn lead_length() -> usize
        ensures { result ≡ kind.lead };

    // One octet from the line: in step it gives a character or is bad, else it gives nothing.
    fn take(&mut self, octet: u8) -> Result<Option<u8>, LineFault>
        ensures after { wants self.new ≡ wanted kind (wants self.old) octet }
        ensures gives { result ≡ given kind (wants self.old) octet };

    // The octet that is sent for a code: that of the character in its low seven bits.
    fn encode(&self, code: u8) -> u8
        ensures { result ≡ kind.octet (code % 128) };

    ghost back: { GivesBack kind };

    ghost detects: { DetectsOneBit kind };

    ghost lead: { LeadFits kind };

    ghost range: { InRange kind };
}
