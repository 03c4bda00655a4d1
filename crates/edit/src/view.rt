// A screen with the cursor on it.
ghost use Rattle.std.specs.Prelude.{◌≡◌, ◌<◌, length};

use crate::cell::on_screen;
use screen::interface::Screen;

#[derive(Drop)]
pub struct View<'s, S: Screen> {
    pub(crate) screen: &'s mut S,
    pub(crate) cursor: usize,
    ghost on: { cursor < length (S.Screen.grid screen.now).cells },
}

impl<'s, S: Screen> View<'s, S> {
    ghost use Rattle.edit.specs.View.{at, size};
    ghost use Rattle.edit.specs.Shown.{shown};

    // The screen as it stands with the cursor at a place, going round.
    pub fn at(screen: &'s mut S, cursor: usize) -> View<'s, S>
        ensures name { result.screen.ghost_name ≡ screen.entry.ghost_name }
        ensures screen { result.screen.now ≡ screen.old }
        ensures view { shown result ≡ at (S.grid screen.old) cursor }
    {
        let cursor = on_screen(screen, cursor);
        View { screen, cursor }
    }

    // The place of the cursor.
    pub fn cursor(&self) -> usize
        ensures value { result ≡ self.now.cursor }
        ensures on { result < size (S.grid self.now.screen.now) }
    {
        self.cursor
    }
}
