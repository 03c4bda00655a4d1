// The refusals of keys and octets, by their numbers.
ghost use Rattle.std.specs.Prelude.{◌≡◌};
ghost use Rattle.console.specs.declared.fault.Cause.TheVariants.{Below};
ghost use Rattle.console.specs.declared.fault.OctetRefusal.TheVariants as octet;
ghost use Rattle.console.specs.Numbers.{key_number, message_number, cause_number, octet_number};

use area::Refusal;
use numbered::Numbered;
use receiver::fault::{Cause as ReceiverCause, Fault as ReceiverFault};

// Why a key is refused.
#[derive(Clone, Copy, PartialEq, Eq, Debug)]
pub enum KeyRefusal {
    Locked = 1,
    NoSuchKey = 2,
    NoOpenCell = 3,
    StillHeld = 4,
    CallHeld = 5,
}

impl Numbered for KeyRefusal {
    ghost number_of = { key_number };

    fn number(&self) -> u8 {
        *self as u8
    }
}

// Why the terminal refuses a whole message.
#[derive(Clone, Copy, PartialEq, Eq, Debug)]
pub enum MessageFault {
    UnknownForm = 10,
    OtherStation = 11,
    NothingToRepeat = 12,
}

impl Numbered for MessageFault {
    ghost number_of = { message_number };

    fn number(&self) -> u8 {
        *self as u8
    }
}

// The layer that refused an octet that was taken, and why.
#[derive(Clone, Copy, PartialEq, Eq, Debug)]
pub enum Cause {
    Below(ReceiverCause),
    Terminal(MessageFault),
}

impl Numbered for Cause {
    ghost number_of = { cause_number };

    fn number(&self) -> u8 {
        match self {
            Cause::Below(cause) => cause.number(),
            Cause::Terminal(fault) => fault.number(),
        }
    }
}

// A refusal of an octet that was taken, with the count of the characters kept till then.
#[derive(Clone, Copy, PartialEq, Eq, Debug)]
pub struct Fault {
    pub cause: Cause,
    pub kept: usize,
}

impl From<ReceiverFault> for Fault {
    ghost from_gives = { λ e r. r ≡ record { cause = Below e.cause; kept = e.kept } };

    fn from(e: ReceiverFault) -> Fault {
        Fault {
            cause: Cause::Below(e.cause),
            kept: e.kept,
        }
    }
}

// Why an octet is refused.
#[derive(Clone, Copy, PartialEq, Eq, Debug)]
pub enum OctetRefusal {
    // the area is too short for a reply; the octet is not taken
    Area(Refusal),
    // the octet is taken, and the message dropped
    Fault(Fault),
}

impl Numbered for OctetRefusal {
    ghost number_of = { octet_number };

    fn number(&self) -> u8 {
        match self {
            OctetRefusal::Area(refusal) => refusal.number(),
            OctetRefusal::Fault(fault) => fault.cause.number(),
        }
    }
}

impl From<Refusal> for OctetRefusal {
    ghost from_gives = { λ e r. r ≡ octet.Area e };

    fn from(e: Refusal) -> OctetRefusal {
        OctetRefusal::Area(e)
    }
}

impl From<Fault> for OctetRefusal {
    ghost from_gives = { λ e r. r ≡ octet.Fault e };

    fn from(e: Fault) -> OctetRefusal {
        OctetRefusal::Fault(e)
    }
}
