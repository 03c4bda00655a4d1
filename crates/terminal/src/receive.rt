// Pressing a key, and receiving an octet. After every history of a terminal both keep the law of the crate `history`.
ghost use Rattle.std.specs.Prelude.{◌≡◌, length};
ghost use Rattle.station.specs.Terminal.{keyed, received};
ghost use Rattle.history.specs.Trace.{key as by_key, octet as by_octet};
ghost use Rattle.history.specs.Law.{KeepsLaw};
ghost use Rattle.terminal.specs.Does.{Does};
ghost use Rattle.terminal.specs.Meaning.{state_of};
ghost use Rattle.terminal.specs.Same.{SameTerminal};
ghost use Rattle.terminal.specs.Seen.{seen_key, seen_octet};

use crate::send::ROOM;
use crate::terminal::Terminal;
use area::Refusal;
use console::answer::Answer;
use console::fault::{KeyRefusal, OctetRefusal};
use line::Line;
use screen::interface::Screen;

impl<'s, L: Line, S: Screen> Terminal<'s, L, S> {
    // Presses a key.
    pub fn press(&mut self, key: u8) -> Result<Answer, KeyRefusal>
        ensures same { SameTerminal S.Screen.rest self.old self.new }
        ensures answer { result ≡ (keyed key (state_of L.Line.wants S.Screen.grid self.old)).answer }
        ensures after { state_of L.Line.wants S.Screen.grid self.new ≡ (keyed key (state_of L.Line.wants S.Screen.grid self.old)).after }
        ensures law { KeepsLaw L.Line.kind self.old.identity (by_key key) (state_of L.Line.wants S.Screen.grid self.old) (seen_key result (state_of L.Line.wants S.Screen.grid self.new)) }
    {
        self.console.press(self.screen, key)
    }

    // Receives an octet, with an area for the reply.
    pub fn receive(&mut self, octet: u8, area: &mut [u8]) -> Result<Answer, OctetRefusal>
        ensures same { SameTerminal S.Screen.rest self.old self.new }
        ensures does { Does (received L.Line.kind self.old.identity octet (length area.old) (state_of L.Line.wants S.Screen.grid self.old)) result area.old area.new (state_of L.Line.wants S.Screen.grid self.new) }
        ensures law { KeepsLaw L.Line.kind self.old.identity (by_octet octet (length area.old)) (state_of L.Line.wants S.Screen.grid self.old) (seen_octet result area.new (state_of L.Line.wants S.Screen.grid self.new)) }
    {
        let Some(room) = area.first_chunk_mut::<ROOM>() else {
            return Err(OctetRefusal::Area(Refusal::ShortArea));
        };
        self.take(octet, room)
    }
}
