// The synchronous line: odd parity, two SYN octets to come into step, a lead of four.
ghost use Rattle.line.specs.Parity.{synchronous};
ghost use Rattle.line.specs.Octets.{gives_back, detects, in_range};
ghost use Rattle.line.specs.declared.parity.Parity.TheVariants.{Odd};
ghost use Rattle.std.proofs.Common.{rules};

use crate::parity::Parity;
use crate::{Line, LineFault};
use codes::SYN;

const FULL: u8 = 2;

// No one type serves this line and the asynchronous one: with the numbers as parameters the law of the lead would fail at
// some, and a line without parity would share nothing.
#[derive(Clone, Copy)]
pub struct SyncLine {
    wanted: u8,
}

impl Line for SyncLine {
    ghost kind = { synchronous };

    ghost wants = { λ s. s.wanted };

    ghost back = { gives_back Odd };

    ghost detects = { detects Odd };

    ghost lead = { Prim.search rules };

    ghost range = { in_range Odd };

    fn new() -> SyncLine {
        SyncLine { wanted: FULL }
    }

    fn full_number() -> usize {
        FULL as usize
    }

    fn lead_length() -> usize {
        4
    }

    fn take(&mut self, octet: u8) -> Result<Option<u8>, LineFault> {
        if self.wanted == 0 {
            let given = Parity::Odd.character(octet).map(Some);
            if given.is_err() {
                self.wanted = FULL;
            }
            return given;
        }
        if octet == self.encode(SYN) {
            self.wanted -= 1;
        } else {
            self.wanted = FULL;
        }
        Ok(None)
    }

    fn encode(&self, code: u8) -> u8 {
        Parity::Odd.octet(code)
    }
}
