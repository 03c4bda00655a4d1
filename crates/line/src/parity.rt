// A parity bit on top of seven bits, made and tested with masks and shifts.
ghost use Rattle.std.specs.Prelude.{◌≡◌, ◌%◌, cond, Ok, Err};
ghost use Rattle.line.specs.Parity.{has_parity, with_parity};

use crate::LineFault;

// How many of an octet's eight bits are set: an even or an odd number.
#[derive(Clone, Copy)]
pub(crate) enum Parity {
    Even = 0,
    Odd = 1,
}

impl Parity {
    // Whether an octet, folded onto its lowest bit, has this parity.
    #[tactic(auto, using(crate::specs::Octets::folded_even, crate::specs::Octets::folded_odd))]
    fn holds(self, octet: u8) -> bool
        ensures { result ≡ has_parity self octet }
    {
        let four = octet ^ (octet >> 4);
        let two = four ^ (four >> 2);
        (two ^ (two >> 1)) & 1 == self as u8
    }

    // The character in an octet of this parity.
    pub(crate) fn character(self, octet: u8) -> Result<u8, LineFault>
        ensures { result ≡ cond (has_parity self octet) (Ok (octet % 128)) (Err LineFault.Parity) }
    {
        if self.holds(octet) {
            Ok(octet & 0x7f)
        } else {
            Err(LineFault::Parity)
        }
    }

    // The octet of this parity for the character in a code's low seven bits.
    pub(crate) fn octet(self, code: u8) -> u8
        ensures { result ≡ with_parity self (code % 128) }
    {
        let character = code & 0x7f;
        if self.holds(character) {
            character
        } else {
            character | 0x80
        }
    }
}
