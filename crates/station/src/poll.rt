// What a poll finds and settles.
ghost use Rattle.std.specs.Prelude.{◌≡◌};
ghost use Rattle.console.specs.Console.{found, is_empty, settled, acknowledges_text, with_outstanding};
ghost use Rattle.station.specs.Meaning.{console_of};

use crate::state::Console;
use console::outstanding::{Load, Outstanding};

impl Console {
    // What there is to send; the text comes before the call.
    pub fn found(&self) -> Outstanding
        ensures { result ≡ found (console_of self.now) }
    {
        let load = if self.host.is_held() {
            Load::Text
        } else if self.call.is_some() {
            Load::Call
        } else {
            Load::Nothing
        };
        Outstanding {
            acknowledges: self.due,
            load,
        }
    }

    // A poll that acknowledges settles what is outstanding: what that reply carried is no longer held. Answers whether
    // it carried the held text.
    pub fn settle(&mut self, acknowledges: bool) -> bool
        ensures answer { result ≡ acknowledges_text acknowledges self.old.outstanding }
        ensures after { console_of self.new ≡ settled acknowledges self.old.outstanding (console_of self.old) }
        ensures cursor { self.new.host.cursor ≡ self.old.host.cursor }
    {
        if !acknowledges {
            return false;
        }
        let Some(reply) = self.outstanding.take() else {
            return false;
        };
        match reply.load {
            Load::Nothing => {}
            Load::Text => self.host.held = None,
            Load::Call => self.call = None,
        }
        reply.load == Load::Text
    }

    // A fresh reply is outstanding, and pays the acknowledgement that was due.
    pub fn owe(&mut self, reply: Outstanding)
        ensures after { console_of self.new ≡ with_outstanding reply (console_of self.old) }
        ensures cursor { self.new.host.cursor ≡ self.old.host.cursor }
    {
        self.outstanding = Some(reply);
        self.due = false;
    }
}
