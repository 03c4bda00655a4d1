// A list of keys and octets, one after the other.
ghost use Rattle.std.specs.Prelude.{◌≡◌, map, length, MatchResult};
ghost use Rattle.history.specs.Trace.{outcome_of};
ghost use Rattle.history.specs.Runs.{RanLawfully};
ghost use Rattle.terminal.specs.Events.{event_of};
ghost use Rattle.terminal.specs.Does.{Does};
ghost use Rattle.terminal.specs.Meaning.{state_of};
ghost use Rattle.terminal.specs.Same.{SameTerminal};

use crate::terminal::Terminal;
use console::answer::Answer;
use line::Line;
use screen::interface::Screen;
use station::fault::Refusal;
use std::alloc::{AllocError, Global};

#[derive(Clone, Copy, PartialEq, Eq, Debug)]
pub enum Event {
    Key(u8),
    Octet(u8),
}

impl<'s, L: Line, S: Screen> Terminal<'s, L, S> {
    // One event, with an area for a reply.
    fn step(&mut self, event: Event, area: &mut [u8]) -> Result<Answer, Refusal>
        ensures same { SameTerminal S.Screen.rest self.old self.new }
        ensures does { Does (outcome_of L.Line.kind self.old.identity (event_of (length area.old) event) (state_of L.Line.wants S.Screen.grid self.old)) result area.old area.new (state_of L.Line.wants S.Screen.grid self.new) }
    {
        match event {
            Event::Key(key) => self.press(key).map_err(Refusal::from),
            Event::Octet(octet) => self.receive(octet, area).map_err(Refusal::from),
        }
    }

    // Takes the events one after the other, with one area for the replies, and gives back the answers in their order. Where
    // there is no memory for them, nothing is done.
    pub fn run(
        &mut self,
        events: &[Event],
        area: &mut [u8],
        heap: Global,
    ) -> Result<Vec<Result<Answer, Refusal>>, AllocError>
        ensures same { SameTerminal S.Screen.rest self.old self.new }
        ensures runs { MatchResult result (λ log. RanLawfully L.Line.kind self.old.identity (map (event_of (length area.old)) events.now) log.items (state_of L.Line.wants S.Screen.grid self.old) (state_of L.Line.wants S.Screen.grid self.new) area.old area.new) (λ _. (state_of L.Line.wants S.Screen.grid self.new ≡ state_of L.Line.wants S.Screen.grid self.old) × (area.new ≡ area.old)) }
    {
        let mut log = Vec::with_capacity(heap, events.len())?;
        for event in events {
            log.push_reserved(self.step(*event, area));
        }
        Ok(log)
    }
}
