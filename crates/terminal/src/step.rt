// An octet that is taken: what line and receiver hear is answered.
ghost use Rattle.std.specs.Prelude.{◌≡◌, length, Ok};
ghost use Rattle.receiver.specs.Meaning.{message_of};
ghost use Rattle.receiver.specs.Hearing.{hear};
ghost use Rattle.station.specs.Terminal.{taken, heard_by, heard_fault, heard_outcome};
ghost use Rattle.terminal.specs.Does.{Does};
ghost use Rattle.terminal.specs.Meaning.{state_of};
ghost use Rattle.terminal.specs.Same.{SameTerminal};

use crate::send::{ROOM, Sender};
use crate::terminal::Terminal;
use console::answer::Answer;
use console::fault::{Fault, OctetRefusal};
use line::Line;
use receiver::receive::Event;
use screen::interface::Screen;

impl<'s, L: Line, S: Screen> Terminal<'s, L, S> {
    // Line and receiver take an octet.
    fn hear(&mut self, octet: u8) -> Result<Event, Fault>
        ensures screen { self.new.screen.ghost_name ≡ self.old.screen.ghost_name }
        ensures same { self.new.screen.now ≡ self.old.screen.now }
        ensures identity { self.new.identity ≡ self.old.identity }
        ensures answer { result ≡ heard_fault (hear L.Line.kind (L.Line.wants self.old.line) (state_of L.Line.wants S.Screen.grid self.old).receiver octet).answer }
        ensures message { message_of self.new.receiver ≡ (hear L.Line.kind (L.Line.wants self.old.line) (state_of L.Line.wants S.Screen.grid self.old).receiver octet).message }
        ensures after { state_of L.Line.wants S.Screen.grid self.new ≡ heard_by L.Line.kind octet (state_of L.Line.wants S.Screen.grid self.old) }
    {
        Ok(self.receiver.hear(&mut self.line, octet)?)
    }

    // Answers what line and receiver made of an octet.
    fn respond(&mut self, event: Event, area: &mut [u8; ROOM]) -> Result<Answer, OctetRefusal>
        ensures same { SameTerminal S.Screen.rest self.old self.new }
        ensures does { Does (heard_outcome L.Line.kind self.old.identity (Ok event) (message_of self.old.receiver) (state_of L.Line.wants S.Screen.grid self.old)) result area.old area.new (state_of L.Line.wants S.Screen.grid self.new) }
    {
        match event {
            Event::Message(kept) => {
                let sender = Sender {
                    line: &self.line,
                    identity: self.identity,
                };
                let message = self.receiver.message();
                sender.obey(area, self.screen, &mut self.console, message, kept)
            }
            Event::Nothing | Event::Begun => Ok(Answer::silent(false, false)),
        }
    }

    // Takes an octet that has room for its reply.
    pub(crate) fn take(&mut self, octet: u8, area: &mut [u8; ROOM]) -> Result<Answer, OctetRefusal>
        ensures same { SameTerminal S.Screen.rest self.old self.new }
        ensures does { Does (taken L.Line.kind self.old.identity octet (state_of L.Line.wants S.Screen.grid self.old)) result area.old area.new (state_of L.Line.wants S.Screen.grid self.new) }
        ensures room { length area.new ≡ length area.old }
    {
        let event = self.hear(octet)?;
        self.respond(event, area)
    }
}
