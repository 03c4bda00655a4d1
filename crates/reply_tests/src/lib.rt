// A whole reply, composed as a station does it.
#![tactic(auto)]

ghost use Rattle.std.specs.Prelude.{◌≡◌, IfOk};
ghost use Rattle.reply.specs.Octets.{soh_first};
ghost use Rattle.reply.specs.Steps.{closed};
ghost use Rattle.reply.specs.Progress.{Shows};
ghost use Rattle.reply_tests.specs.Characters.{characters};

use area::Refusal;
use codes::{ETX, STX};
use line::Line;
use reply::begun::{Begun, Closed};

#[cfg(test)]
mod tests;

// The station's addresses, an acknowledgement or nothing, and a text: the area then begins with that reply, and is as it
// was behind it.
pub fn compose<L: Line>(
    line: &L,
    area: &mut [u8],
    acknowledgement: &[u8],
    text: &[u8],
) -> Result<usize, Refusal>
    ensures { IfOk result (λ n. Shows L.Line.kind area.old soh_first (characters acknowledgement.now text.now) (closed n) area.new) }
{
    let reply = Begun::new(line, area)?;
    let addressed = reply.put_all(line, area, &[0x31, 0x61, 0x70])?;
    let acknowledged = addressed.put_all(line, area, acknowledgement)?;
    let started = acknowledged.put(line, area, STX)?;
    let told = started.put_all(line, area, text)?;
    let ended = told.put(line, area, ETX)?;
    let closed: Closed = ended.close(line, area)?;
    Ok(closed.length)
}
