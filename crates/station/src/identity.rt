// A station's identity.
ghost use Rattle.std.specs.Prelude.{◌≡◌, ℕ, ◌≤◌, false, MatchResult};
ghost use Rattle.station.specs.Identity.{is_identity};
ghost use Rattle.station.specs.Numbers.{identity_number};

use console::identity::Identity as Identifiers;
use numbered::Numbered;

// The remote identifier, 21 to 4F, and the station identifier, 51 to 6F.
#[derive(Clone, Copy)]
pub struct Identity {
    pub identifiers: Identifiers,
    ghost rid_least: { 0x21 ≤ identifiers.rid },
    ghost rid_most: { identifiers.rid ≤ 0x4F },
    ghost sid_least: { 0x51 ≤ identifiers.sid },
    ghost sid_most: { identifiers.sid ≤ 0x6F },
}

// Why there is no such station, by number.
#[derive(Clone, Copy, PartialEq, Eq, Debug)]
pub enum IdentityRefusal {
    OutOfRange = 15,
}

impl Numbered for IdentityRefusal {
    ghost number_of = { identity_number };

    fn number(&self) -> u8 {
        *self as u8
    }
}

impl Identity {
    // The identity, or the refusal 15.
    pub fn new(rid: u8, sid: u8) -> Result<Identity, IdentityRefusal>
        ensures { MatchResult result (λ i. i.identifiers ≡ record { rid = rid; sid = sid }) (λ e. (is_identity rid sid ≡ false) × (e ≡ IdentityRefusal.OutOfRange)) }
    {
        match (rid, sid) {
            (0x21..=0x4f, 0x51..=0x6f) => {
                let identifiers = Identifiers { rid, sid };
                Ok(Identity { identifiers })
            }
            _ => Err(IdentityRefusal::OutOfRange),
        }
    }
}
