// Octets on a line: the lead, which brings the other end of the line into step, and those of characters.
ghost use Rattle.std.specs.Prelude.{◌≡◌, ◌+◌, ◌≤◌, [], length};
ghost use Rattle.area.specs.Over.{over, written_at};
ghost use Rattle.reply.specs.Octets.{octets, so_far};

use codes::SYN;
use line::Line;

// Writes the lead and the octets of the first characters, where they have room, and answers the place behind them.
pub(crate) fn begin<L: Line>(line: &L, area: &mut [u8], first: &[u8]) -> usize
    requires { L.Line.kind.lead + length first.now ≤ length area.old }
    ensures area { area.new ≡ over (so_far L.Line.kind first.now []) area.old }
    ensures next { result ≡ length (so_far L.Line.kind first.now []) }
{
    let lead = L::lead_length();
    area[..lead].fill(line.encode(SYN));
    send(line, area, lead, first)
}

// Writes the characters' octets from a place on, where they have room, and answers the place behind them.
pub(crate) fn send<L: Line>(line: &L, area: &mut [u8], place: usize, characters: &[u8]) -> usize
    requires { place + length characters.now ≤ length area.old }
    ensures area { area.new ≡ written_at area.old place (octets L.Line.kind characters.now) }
    ensures next { result ≡ place + length characters.now }
{
    let end = place + characters.len();
    encode(line, &mut area[place..end], characters);
    end
}

// Writes the characters' octets over as many, in one pass: a loop over places, since nothing is known of what a zip with the
// part leaves.
fn encode<L: Line>(line: &L, part: &mut [u8], characters: &[u8])
    requires { length part.old ≡ length characters.now }
    ensures { part.new ≡ octets L.Line.kind characters.now }
{
    for (i, character) in characters.iter().enumerate() {
        part[i] = line.encode(*character);
    }
}
