// Replies of the station, composed into the caller's area.
ghost use Rattle.std.specs.Prelude.{◌+◌, ◌≤◌, ◌++◌, length};
ghost use Rattle.reply.specs.Octets.{no_traffic_octets};
ghost use Rattle.console.specs.Console.{content, load_codes, enquiry, framed};
ghost use Rattle.station.specs.Meaning.{console_of};
ghost use Rattle.terminal.specs.Sends.{Sends};

use area::Refusal;
use codes::{DLE, ENQ, ETX, STX};
use console::outstanding::{Load, Outstanding};
use line::Line;
use message::ACKNOWLEDGE;
use reply::begun::Begun;
use reply::no_traffic::no_traffic;
use station::action::DID;
use station::identity::Identity;
use station::state::Console;

// Any reply fits into so many octets.
pub(crate) const ROOM: usize = 5800;

// A station at its line. An area of ROOM octets takes each of its replies.
#[derive(Drop)]
pub(crate) struct Sender<'a, L> {
    pub(crate) line: &'a L,
    pub(crate) identity: Identity,
}

impl<'a, L: Line> Sender<'a, L> {
    // A reply with SOH: the station's addresses, an acknowledgement or nothing, what begins the load, and the rest of it.
    fn compose(
        &self,
        area: &mut [u8; ROOM],
        acknowledgement: &[u8],
        first: &[u8],
        text: &[u8],
    ) -> Result<usize, Refusal>
        requires { length acknowledgement.now + length first.now + length text.now ≤ 5770 }
        ensures { Sends (framed L.Line.kind self.now.identity.identifiers (acknowledgement.now ++ (first.now ++ text.now))) result area.old area.new }
    {
        let line = self.line;
        let station = self.identity.identifiers;
        let reply = Begun::new(line, area)?;
        let addressed = reply.put_all(line, area, &[station.rid, station.sid, DID])?;
        let acknowledged = addressed.put_all(line, area, acknowledgement)?;
        let started = acknowledged.put_all(line, area, first)?;
        let told = started.put_all(line, area, text)?;
        let ended = told.put(line, area, ETX)?;
        Ok(ended.close(line, area)?.length)
    }

    // An acknowledgement or nothing, and then the load: the held text or call.
    fn send_load(
        &self,
        area: &mut [u8; ROOM],
        acknowledgement: &[u8],
        console: &Console,
        load: Load,
    ) -> Result<usize, Refusal>
        requires { length acknowledgement.now ≤ 2 }
        ensures { Sends (framed L.Line.kind self.now.identity.identifiers (acknowledgement.now ++ load_codes load (console_of console.now))) result area.old area.new }
    {
        match (load, console.host.held(), console.call) {
            (Load::Text, Some(text), _) => self.compose(area, acknowledgement, &[STX], text),
            (Load::Call, _, Some(code)) => self.compose(area, acknowledgement, &[code], &[]),
            _ => self.compose(area, acknowledgement, &[], &[]),
        }
    }

    // The reply that is outstanding, or is to be: what a repeat sends again.
    pub(crate) fn send_reply(
        &self,
        area: &mut [u8; ROOM],
        console: &Console,
        reply: Outstanding,
    ) -> Result<usize, Refusal>
        ensures { Sends (framed L.Line.kind self.now.identity.identifiers (content reply (console_of console.now))) result area.old area.new }
    {
        let both = [DLE, ACKNOWLEDGE];
        let acknowledgement: &[u8] = if reply.acknowledges { &both } else { &[] };
        self.send_load(area, acknowledgement, console, reply.load)
    }

    // DLE ENQ: a reply is still to be acknowledged.
    pub(crate) fn send_enquiry(&self, area: &mut [u8; ROOM]) -> Result<usize, Refusal>
        ensures { Sends (framed L.Line.kind self.now.identity.identifiers enquiry) result area.old area.new }
    {
        self.compose(area, &[DLE, ENQ], &[], &[])
    }

    // EOT EOT ETX: nothing to send.
    pub(crate) fn send_no_traffic(&self, area: &mut [u8; ROOM]) -> Result<usize, Refusal>
        ensures { Sends (no_traffic_octets L.Line.kind) result area.old area.new }
    {
        Ok(no_traffic(self.line, area)?.length)
    }
}
