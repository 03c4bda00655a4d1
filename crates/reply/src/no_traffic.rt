// The reply of a station that has nothing to send.
ghost use Rattle.std.specs.Prelude.{◌≡◌};
ghost use Rattle.receiver.specs.Check.{block_check};
ghost use Rattle.reply.specs.Octets.{no_traffic};
ghost use Rattle.reply.specs.Steps.{sends_no_traffic};

use crate::begun::Closed;
use crate::octets::begin;
use area::{Refusal, room};
use codes::{EOT, ETX};
use line::Line;
use receiver::check::block_check;

// The whole reply: the lead, EOT EOT ETX and their check.
pub fn no_traffic<L: Line>(line: &L, area: &mut [u8]) -> Result<Closed, Refusal>
    ensures area { area.new ≡ (sends_no_traffic L.Line.kind area.old).area }
    ensures answer { result ≡ (sends_no_traffic L.Line.kind area.old).answer }
    ensures check { block_check no_traffic ≡ 0x03 }
{
    room(area, 0, L::lead_length() + 4)?;
    let check = block_check(&[EOT, EOT, ETX]);
    Ok(Closed {
        length: begin(line, area, &[EOT, EOT, ETX, check]),
    })
}
