// The asynchronous line: even parity, always in step, no lead.
ghost use Rattle.line.specs.Parity.{asynchronous};
ghost use Rattle.line.specs.Octets.{gives_back, detects, in_range};
ghost use Rattle.line.specs.declared.parity.Parity.TheVariants.{Even};
ghost use Rattle.std.proofs.Common.{rules};

use crate::parity::Parity;
use crate::{Line, LineFault};

#[derive(Clone, Copy)]
pub struct AsyncLine;

impl Line for AsyncLine {
    ghost kind = { asynchronous };

    ghost wants = { λ _. 0 };

    ghost back = { gives_back Even };

    ghost detects = { detects Even };

    ghost lead = { Prim.search rules };

    ghost range = { in_range Even };

    fn new() -> AsyncLine {
        AsyncLine
    }

    fn full_number() -> usize {
        0
    }

    fn lead_length() -> usize {
        0
    }

    fn take(&mut self, octet: u8) -> Result<Option<u8>, LineFault> {
        Parity::Even.character(octet).map(Some)
    }

    fn encode(&self, code: u8) -> u8 {
        Parity::Even.octet(code)
    }
}
