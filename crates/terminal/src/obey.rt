// Whole messages: polls are answered, host texts carried out.
ghost use Rattle.std.specs.Prelude.{◌≡◌, false, length, Some, None, Ok};
ghost use Rattle.area.specs.Over.{over};
ghost use Rattle.text.specs.Steps.{steps_of};
ghost use Rattle.console.specs.declared.fault.MessageFault as fault;
ghost use Rattle.console.specs.Console.{acknowledges_text, polled, spoken};
ghost use Rattle.station.specs.Meaning.{console_of, station_of};
ghost use Rattle.station.specs.Station.{said, carries_out, obeyed};
ghost use Rattle.station.specs.Terminal.{told};
ghost use Rattle.terminal.specs.Sends.{Sends};

use crate::send::{ROOM, Sender};
use area::Refusal;
use console::answer::Answer;
use console::fault::{Cause, Fault, OctetRefusal};
use host::carry::carry_out;
use line::Line;
use screen::interface::Screen;
use station::action::MessageAction;
use station::state::Console;

// Carries out a host text, which is to be acknowledged.
fn carry_text<S: Screen>(screen: &mut S, console: &mut Console, text: &[u8]) -> Answer
    ensures rest { S.rest screen.new ≡ S.rest screen.old }
    ensures answer { Ok result ≡ (carries_out {R = fault.MessageFault} (steps_of text.now) (station_of (S.grid screen.old) console.old)).answer }
    ensures after { station_of (S.grid screen.new) console.new ≡ (carries_out {R = fault.MessageFault} (steps_of text.now) (station_of (S.grid screen.old) console.old)).after }
{
    let taken_up = carry_out(screen, &mut console.host, text);
    console.due = true;
    Answer::silent(taken_up, true)
}

impl<'a, L: Line> Sender<'a, L> {
    // What there is to send, or no traffic: the answer to a poll with nothing outstanding.
    fn send_fresh(&self, area: &mut [u8; ROOM], console: &mut Console) -> Result<usize, Refusal>
        ensures sends { Sends (spoken L.Line.kind self.now.identity.identifiers None (console_of console.old)).octets result area.old area.new }
        ensures after { console_of console.new ≡ (spoken L.Line.kind self.now.identity.identifiers None (console_of console.old)).console }
        ensures cursor { console.new.host.cursor ≡ console.old.host.cursor }
    {
        let reply = console.found();
        if reply.is_empty() {
            return self.send_no_traffic(area);
        }
        let length = self.send_reply(area, console, reply)?;
        console.owe(reply);
        Ok(length)
    }

    // What a poll is answered with, once it has settled what it acknowledges: DLE ENQ while a reply is still outstanding.
    fn speak(&self, area: &mut [u8; ROOM], console: &mut Console) -> Result<usize, Refusal>
        ensures sends { Sends (spoken L.Line.kind self.now.identity.identifiers console.old.outstanding (console_of console.old)).octets result area.old area.new }
        ensures after { console_of console.new ≡ (spoken L.Line.kind self.now.identity.identifiers console.old.outstanding (console_of console.old)).console }
        ensures cursor { console.new.host.cursor ≡ console.old.host.cursor }
    {
        match console.outstanding {
            Some(_) => self.send_enquiry(area),
            None => self.send_fresh(area, console),
        }
    }

    // Answers a poll, one that acknowledges or not.
    fn answer_poll(
        &self,
        area: &mut [u8; ROOM],
        console: &mut Console,
        acknowledges: bool,
    ) -> Result<Answer, Refusal>
        ensures answer { result ≡ said false (acknowledges_text acknowledges console.old.outstanding) false (Some (length (polled L.Line.kind self.now.identity.identifiers acknowledges (console_of console.old)).octets)) }
        ensures area { area.new ≡ over (polled L.Line.kind self.now.identity.identifiers acknowledges (console_of console.old)).octets area.old }
        ensures after { console_of console.new ≡ (polled L.Line.kind self.now.identity.identifiers acknowledges (console_of console.old)).console }
        ensures cursor { console.new.host.cursor ≡ console.old.host.cursor }
    {
        let acknowledged = console.settle(acknowledges);
        let length = self.speak(area, console)?;
        Ok(Answer::replied(acknowledged, length))
    }

    // Does what a whole message asks of the station, or refuses it: its `kept` characters are dropped then.
    pub(crate) fn obey<S: Screen>(
        &self,
        area: &mut [u8; ROOM],
        screen: &mut S,
        console: &mut Console,
        message: &[u8],
        kept: usize,
    ) -> Result<Answer, OctetRefusal>
        ensures rest { S.rest screen.new ≡ S.rest screen.old }
        ensures answer { result ≡ told kept (obeyed L.Line.kind self.now.identity message.now (station_of (S.grid screen.old) console.old)).answer }
        ensures area { area.new ≡ over (obeyed L.Line.kind self.now.identity message.now (station_of (S.grid screen.old) console.old)).reply area.old }
        ensures after { station_of (S.grid screen.new) console.new ≡ (obeyed L.Line.kind self.now.identity message.now (station_of (S.grid screen.old) console.old)).after }
    {
        match MessageAction::decide(self.identity, console.outstanding, message) {
            Ok(MessageAction::Poll { acknowledges }) => {
                Ok(self.answer_poll(area, console, acknowledges)?)
            }
            Ok(MessageAction::Repeat(reply)) => {
                let length = self.send_reply(area, console, reply)?;
                Ok(Answer::replied(false, length))
            }
            Ok(MessageAction::CarryOut(text)) => Ok(carry_text(screen, console, text)),
            // an arm, since with `map_err` and `?` the clause of the area stayed open
            Err(fault) => {
                let cause = Cause::Terminal(fault);
                Err(OctetRefusal::Fault(Fault { cause, kept }))
            }
        }
    }
}
