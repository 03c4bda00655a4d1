// The refusals of the receiver and of the line below it.
ghost use Rattle.std.specs.Prelude.{◌≡◌};
ghost use Rattle.receiver.specs.declared.fault.Cause.TheVariants.{Line};
ghost use Rattle.receiver.specs.Numbers.{number_of};

use line::LineFault;
use numbered::Numbered;

// Why the receiver refuses, by the number of the refusal.
#[derive(Clone, Copy, PartialEq, Eq, Debug)]
pub enum ReceiverFault {
    TooLong = 8,
    BlockCheck = 9,
}

// The layer that refused, and why.
#[derive(Clone, Copy, PartialEq, Eq, Debug)]
pub enum Cause {
    Line(LineFault),
    Receiver(ReceiverFault),
}

impl Numbered for Cause {
    ghost number_of = { number_of };

    fn number(&self) -> u8 {
        match self {
            Cause::Line(fault) => *fault as u8,
            Cause::Receiver(fault) => *fault as u8,
        }
    }
}

// A refusal, with the count of the characters kept till then.
#[derive(Clone, Copy, PartialEq, Eq, Debug)]
pub struct Fault {
    pub cause: Cause,
    pub kept: usize,
}

// A line's fault, with the count of the characters kept when it came: the line does not know it. The
// layers' faults are types of their own, since From makes each of the one below.
#[derive(Clone, Copy)]
pub struct BadOctet {
    pub fault: LineFault,
    pub kept: usize,
}

impl From<BadOctet> for Fault {
    ghost from_gives = { λ e r. r ≡ record { cause = Line e.fault; kept = e.kept } };

    fn from(e: BadOctet) -> Fault {
        Fault {
            cause: Cause::Line(e.fault),
            kept: e.kept,
        }
    }
}
