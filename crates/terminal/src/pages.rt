// Kept pages on a terminal's screen.
ghost use Rattle.std.specs.Prelude.{◌≡◌};
ghost use Rattle.page.specs.Calls.{reads};
ghost use Rattle.terminal.specs.Same.{SameTerminal};

use crate::terminal::Terminal;
use line::Line;
use page::read::read_page;
use page::refusal::Refusal;
use screen::interface::Screen;

impl<'s, L: Line, S: Screen> Terminal<'s, L, S> {
    // Reads a page onto the screen, and answers the cursor place that it has. The terminal's own cursor, its lock and all
    // else stay.
    pub fn read_page(&mut self, octets: &[u8]) -> Result<usize, Refusal>
        ensures same { SameTerminal S.Screen.rest self.old self.new }
        ensures line { self.new.line ≡ self.old.line }
        ensures receiver { self.new.receiver ≡ self.old.receiver }
        ensures console { self.new.console ≡ self.old.console }
        ensures grid { S.grid self.new.screen.now ≡ (reads (S.grid self.old.screen.now) octets.now).grid }
        ensures answer { result ≡ (reads (S.grid self.old.screen.now) octets.now).answer }
    {
        read_page(octets, self.screen)
    }
}
