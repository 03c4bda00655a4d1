// Pressing a key.
ghost use Rattle.std.specs.Prelude.{◌≡◌, true, false, cond, ◌==◌, is_some};
ghost use Rattle.codes.specs.Ascii as ascii;
ghost use Rattle.host.specs.Carrying.{held_of};
ghost use Rattle.edit.specs.Writing.{any_open};
ghost use Rattle.console.specs.Console.{new_console, calling};
ghost use Rattle.station.specs.Meaning.{console_of, station_of};
ghost use Rattle.station.specs.Station.{does_key, is_called, can_do, pressed};

use crate::state::Console;
use codes::BEL;
use console::answer::Answer;
use console::fault::KeyRefusal;
use console::key::{Guards, KeyAction};
use edit::edits::Edit;
use edit::store::any_open;
use edit::view::View;
use host::state::State;
use screen::interface::Screen;
use transmission::kind::Kind;

impl Console {
    // Cursor at place 0, keyboard unlocked, light off, nothing held, outstanding or due.
    pub fn new() -> Console
        ensures console { console_of result ≡ new_console }
        ensures cursor { result.host.cursor ≡ 0 }
    {
        Console {
            host: State::new(),
            call: None,
            outstanding: None,
            due: false,
        }
    }

    // What the guards of a key look at.
    fn guards<S: Screen>(&self, screen: &S) -> Guards
        ensures locked { result.locked ≡ self.now.host.locked }
        ensures open { result.any_open ≡ any_open (S.grid screen.now) }
        ensures held { result.held ≡ is_some (held_of self.now.host) }
        ensures called { result.called ≡ is_called self.now.call }
    {
        Guards {
            locked: self.host.locked,
            any_open: any_open(screen, self.host.cursor),
            held: self.host.is_held(),
            called: self.call.is_some(),
        }
    }

    fn store<S: Screen>(&mut self, screen: &mut S, code: u8)
        requires { any_open (S.grid screen.old) ≡ true }
        ensures rest { S.rest screen.new ≡ S.rest screen.old }
        ensures after { station_of (S.grid screen.new) self.new ≡ does_key (KeyAction.Store code) (station_of (S.grid screen.old) self.old) }
    {
        let mut view = View::at(screen, self.host.cursor);
        let _ = view.store(code);
        self.host.cursor = view.cursor();
    }

    #[tactic(auto, using(host::proofs::Steps::at_view))]
    fn edit<S: Screen>(&mut self, screen: &mut S, edit: Edit)
        ensures rest { S.rest screen.new ≡ S.rest screen.old }
        ensures after { station_of (S.grid screen.new) self.new ≡ does_key (KeyAction.Edit edit) (station_of (S.grid screen.old) self.old) }
    {
        let mut view = View::at(screen, self.host.cursor);
        view.apply(edit);
        self.host.cursor = view.cursor();
    }

    fn transmit<S: Screen>(&mut self, screen: &S, kind: Kind)
        ensures { station_of (S.grid screen.now) self.new ≡ does_key (KeyAction.Transmit kind) (station_of (S.grid screen.now) self.old) }
    {
        self.host.take_up(screen, kind);
        self.host.locked = true;
    }

    // MESSAGE WAIT, which calls with BEL, puts the light off.
    fn call(&mut self, code: u8)
        ensures after { console_of self.new ≡ calling code (cond (code == ascii.BEL) false self.old.host.light) (console_of self.old) }
        ensures cursor { self.new.host.cursor ≡ self.old.host.cursor }
    {
        self.call = Some(code);
        if code == BEL {
            self.host.light = false;
        }
    }

    // Does what a key is to do.
    fn perform<S: Screen>(&mut self, screen: &mut S, action: KeyAction)
        requires { can_do action (S.grid screen.old) ≡ true }
        ensures rest { S.rest screen.new ≡ S.rest screen.old }
        ensures after { station_of (S.grid screen.new) self.new ≡ does_key action (station_of (S.grid screen.old) self.old) }
    {
        match action {
            KeyAction::Store(code) => self.store(screen, code),
            KeyAction::Edit(edit) => self.edit(screen, edit),
            KeyAction::Transmit(kind) => self.transmit(screen, kind),
            KeyAction::Call(code) => self.call(code),
            KeyAction::Unlock => self.host.locked = false,
        }
    }

    // Presses a key.
    pub fn press<S: Screen>(&mut self, screen: &mut S, key: u8) -> Result<Answer, KeyRefusal>
        ensures rest { S.rest screen.new ≡ S.rest screen.old }
        ensures answer { result ≡ (pressed key (station_of (S.grid screen.old) self.old)).answer }
        ensures after { station_of (S.grid screen.new) self.new ≡ (pressed key (station_of (S.grid screen.old) self.old)).after }
    {
        let action = KeyAction::decide(key, self.guards(screen))?;
        self.perform(screen, action);
        Ok(Answer::silent(action.takes_up(), false))
    }
}
