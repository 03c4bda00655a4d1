// Why a key or an octet is refused.
ghost use Rattle.std.specs.Prelude.{◌≡◌};
ghost use Rattle.station.specs.declared.fault.Refusal.TheVariants as either;
ghost use Rattle.station.specs.Numbers.{refusal_number};

use console::fault::{KeyRefusal, OctetRefusal};
use numbered::Numbered;

#[derive(Clone, Copy, PartialEq, Eq, Debug)]
pub enum Refusal {
    Key(KeyRefusal),
    Octet(OctetRefusal),
}

impl Numbered for Refusal {
    ghost number_of = { refusal_number };

    fn number(&self) -> u8 {
        match self {
            Refusal::Key(refusal) => refusal.number(),
            Refusal::Octet(refusal) => refusal.number(),
        }
    }
}

impl From<KeyRefusal> for Refusal {
    ghost from_gives = { λ e r. r ≡ either.Key e };

    fn from(e: KeyRefusal) -> Refusal {
        Refusal::Key(e)
    }
}

impl From<OctetRefusal> for Refusal {
    ghost from_gives = { λ e r. r ≡ either.Octet e };

    fn from(e: OctetRefusal) -> Refusal {
        Refusal::Octet(e)
    }
}
