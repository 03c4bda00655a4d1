// An area of octets that the caller lends: what is written stands over its octets, and all others stay as they were.
#![tactic(auto)]

ghost use Rattle.std.specs.Prelude.{◌≡◌};
ghost use Rattle.area.specs.Over.{fits};
ghost use Rattle.area.specs.Room.{room};
ghost use Rattle.area.specs.Numbers.{number_of};

use numbered::Numbered;

// Why an area is refused, by number.
#[derive(Clone, Copy, PartialEq, Eq, Debug)]
pub enum Refusal {
    // too short for what is to be written
    ShortArea = 6,
}

impl Numbered for Refusal {
    ghost number_of = { number_of };

    fn number(&self) -> u8 {
        *self as u8
    }
}

// Whether so many octets have room in the area from a place on.
pub fn has_room(area: &[u8], place: usize, count: usize) -> bool
    ensures { result ≡ fits area.now place count }
{
    place <= area.len() && count <= area.len() - place
}

// Refuses an area where they have none.
pub fn room(area: &[u8], place: usize, count: usize) -> Result<(), Refusal>
    ensures { result ≡ room area.now place count }
{
    has_room(area, place, count)
        .then_some(())
        .ok_or(Refusal::ShortArea)
}
