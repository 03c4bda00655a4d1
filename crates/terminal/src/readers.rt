// What can be seen of a terminal.
ghost use Rattle.std.specs.Prelude.{◌≡◌, option_copied};
ghost use Rattle.screen.specs.Answers.{read_at};
ghost use Rattle.terminal.specs.Meaning.{state_of};

use crate::terminal::Terminal;
use console::outstanding::Outstanding;
use edit::cell::on_screen;
use line::Line;
use screen::interface::Screen;
use screen::refusal::Refusal;
use station::identity::Identity;

impl<'s, L: Line, S: Screen> Terminal<'s, L, S> {
    // The screen, whose cells are the terminal's.
    pub fn screen(&self) -> &S
        ensures { result.now ≡ self.now.screen.now }
    {
        &*self.screen
    }

    pub fn identity(&self) -> Identity
        ensures { result ≡ self.now.identity }
    {
        self.identity
    }

    // The character of a cell and its protection mark.
    pub fn cell(&self, place: usize) -> Result<(u8, bool), Refusal>
        ensures { result ≡ read_at (state_of L.Line.wants S.Screen.grid self.now).station.view.grid place }
    {
        self.screen.read(place)
    }

    // The place of the cursor.
    pub fn cursor(&self) -> usize
        ensures { result ≡ (state_of L.Line.wants S.Screen.grid self.now).station.view.cursor }
    {
        on_screen(self.screen, self.console.host.cursor)
    }

    // Whether the keyboard is locked.
    pub fn is_locked(&self) -> bool
        ensures { result ≡ (state_of L.Line.wants S.Screen.grid self.now).station.console.locked }
    {
        self.console.host.locked
    }

    // Whether the message light is on.
    pub fn is_lit(&self) -> bool
        ensures { result ≡ (state_of L.Line.wants S.Screen.grid self.now).station.console.light }
    {
        self.console.host.light
    }

    // The text of the transmission that waits for its acknowledgement.
    pub fn held(&self) -> Option<&[u8]>
        ensures { option_copied result ≡ (state_of L.Line.wants S.Screen.grid self.now).station.console.held }
    {
        self.console.host.held()
    }

    // The call that waits for its acknowledgement.
    pub fn call(&self) -> Option<u8>
        ensures { result ≡ (state_of L.Line.wants S.Screen.grid self.now).station.console.call }
    {
        self.console.call
    }

    // The reply that is still to be acknowledged.
    pub fn outstanding(&self) -> Option<Outstanding>
        ensures { result ≡ (state_of L.Line.wants S.Screen.grid self.now).station.console.outstanding }
    {
        self.console.outstanding
    }

    // Whether a host text was carried out since the last fresh acknowledgement.
    pub fn is_due(&self) -> bool
        ensures { result ≡ (state_of L.Line.wants S.Screen.grid self.now).station.console.due }
    {
        self.console.due
    }
}
