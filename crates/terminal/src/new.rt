// Making a terminal.
ghost use Rattle.std.specs.Prelude.{◌≡◌, replicate};
ghost use Rattle.receiver.specs.Meaning as receiver;
ghost use Rattle.receiver.specs.Receiving.{idle};
ghost use Rattle.screen.specs.Cells.{blank};
ghost use Rattle.screen.specs.Grid.{with_cells};
ghost use Rattle.edit.specs.View.{size};
ghost use Rattle.console.specs.Console.{new_console};
ghost use Rattle.station.specs.Meaning.{console_of};
ghost use Rattle.history.specs.Trace.{New};
ghost use Rattle.terminal.specs.Meaning.{state_of};

use crate::terminal::Terminal;
use edit::edits::{Change, Edit};
use edit::view::View;
use line::Line;
use receiver::message::Receiver;
use screen::interface::Screen;
use station::identity::Identity;
use station::state::Console;

// Makes every cell an open space.
fn clear<S: Screen>(screen: &mut S)
    ensures rest { S.rest screen.new ≡ S.rest screen.old }
    ensures grid { S.grid screen.new ≡ with_cells (S.grid screen.old) (replicate (size (S.grid screen.old)) blank) }
{
    let mut view = View::at(screen, 0);
    view.apply(Edit::Change(Change::EraseAll));
}

impl<'s, L: Line, S: Screen> Terminal<'s, L, S> {
    // A new terminal: every cell an open space, cursor at place 0, keyboard unlocked, light off, nothing held or outstanding,
    // receiver idle, the line as it was handed over.
    pub fn new(line: L, screen: &'s mut S, identity: Identity) -> Terminal<'s, L, S>
        ensures line { result.line ≡ line }
        ensures identity { result.identity ≡ identity }
        ensures screen { result.screen.ghost_name ≡ screen.entry.ghost_name }
        ensures rest { S.rest result.screen.now ≡ S.rest screen.old }
        ensures grid { S.grid result.screen.now ≡ with_cells (S.grid screen.old) (replicate (size (S.grid screen.old)) blank) }
        ensures cursor { result.console.host.cursor ≡ 0 }
        ensures console { console_of result.console ≡ new_console }
        ensures receiver { receiver.state_of result.receiver ≡ idle }
        ensures new { New (state_of L.Line.wants S.Screen.grid result) }
    {
        clear(screen);
        Terminal {
            line,
            receiver: Receiver::new(),
            identity,
            console: Console::new(),
            screen,
        }
    }
}
