// A reply under way. Begun and closed replies are plain numbers that are moved on: once the check has closed a reply,
// it takes no character, and it cannot be closed again.
ghost use Rattle.std.specs.Prelude.{◌≡◌, [], ◌∷◌};
ghost use Rattle.reply.specs.Steps.{fitting, begins, puts, closes};
ghost use Rattle.reply.specs.Progress.{Begins, Extends, Ends};

use crate::octets::{begin, send};
use area::{Refusal, room};
use codes::SOH;
use line::Line;
use receiver::check::block_check;

// A reply that takes characters: the place of its next octet, and the exclusive or of its characters so far.
#[derive(Drop)]
pub struct Begun {
    place: usize,
    sum: u8,
}

// A reply that its check has closed, with the count of all its octets.
#[derive(Drop)]
pub struct Closed {
    pub length: usize,
}

// A reply that found no room in the area, as it was.
#[derive(Drop)]
pub struct Refused {
    pub reply: Begun,
    pub refusal: Refusal,
}

// A refused reply is let go where the caller wants only the refusal.
impl From<Refused> for Refusal {
    ghost from_gives = { λ e r. r ≡ e.refusal };

    fn from(e: Refused) -> Refusal {
        e.refusal
    }
}

impl Begun {
    // Begins a reply with the lead and SOH.
    pub fn new<L: Line>(line: &L, area: &mut [u8]) -> Result<Begun, Refusal>
        ensures area { area.new ≡ (begins L.Line.kind area.old).area }
        ensures answer { result ≡ (begins L.Line.kind area.old).answer }
        ensures begins { Begins L.Line.kind area.old result area.new }
    {
        room(area, 0, L::lead_length() + 1)?;
        Ok(Begun {
            place: begin(line, area, &[SOH]),
            sum: 0,
        })
    }

    // One character more.
    pub fn put<L: Line>(self, line: &L, area: &mut [u8], character: u8) -> Result<Begun, Refused>
        ensures area { area.new ≡ (puts L.Line.kind self (character ∷ []) area.old).area }
        ensures answer { result ≡ (puts L.Line.kind self (character ∷ []) area.old).answer }
        ensures extends { Extends L.Line.kind self area.old (character ∷ []) result area.new }
    {
        self.put_all(line, area, &[character])
    }

    // All these characters more, or none of them.
    pub fn put_all<L: Line>(
        self,
        line: &L,
        area: &mut [u8],
        characters: &[u8],
    ) -> Result<Begun, Refused>
        ensures area { area.new ≡ (puts L.Line.kind self characters.now area.old).area }
        ensures answer { result ≡ (puts L.Line.kind self characters.now area.old).answer }
        ensures extends { Extends L.Line.kind self area.old characters.now result area.new }
    {
        let Begun { place, sum } = self.fitting(area, characters.len())?;
        Ok(Begun {
            place: send(line, area, place, characters),
            sum: sum ^ block_check(characters),
        })
    }

    // The check closes the reply.
    pub fn close<L: Line>(self, line: &L, area: &mut [u8]) -> Result<Closed, Refused>
        ensures area { area.new ≡ (closes L.Line.kind self area.old).area }
        ensures answer { result ≡ (closes L.Line.kind self area.old).answer }
        ensures ends { Ends L.Line.kind self area.old result area.new }
    {
        let Begun { place, sum } = self.fitting(area, 1)?;
        Ok(Closed {
            length: send(line, area, place, &[sum]),
        })
    }

    // The reply, where so many octets more have room.
    fn fitting(self, area: &[u8], count: usize) -> Result<Begun, Refused>
        ensures { result ≡ fitting self count area.now }
    {
        match room(area, self.place, count) {
            Ok(()) => Ok(self),
            Err(refusal) => Err(Refused {
                reply: self,
                refusal,
            }),
        }
    }
}
