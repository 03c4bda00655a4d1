ghost use Rattle.std.specs.Borrow.{GName};

use screen::interface::Screen;
use screen::refusal::Refusal;

// A screen over any screen that counts the calls that change the screen below.
#[derive(Drop)]
pub struct Counted<'s, S> {
    below: &'s mut S,
    pub calls: u64,
}

impl<'s, S: Screen> Counted<'s, S> {
    pub fn new(below: &'s mut S) -> Counted<'s, S> {
        Counted { below, calls: 0 }
    }
}

impl<'s, S: Screen> Screen for Counted<'s, S> {
    ghost grid = { λ t. S.Screen.grid t.below.now };

    ghost Rest = { GName × S.Screen.Rest };

    ghost rest = { λ t. (t.below.ghost_name, S.Screen.rest t.below.now) };

    ghost sound = { λ t. S.Screen.sound t.below.now };

    fn rows(&self) -> usize {
        self.below.rows()
    }

    fn columns(&self) -> usize {
        self.below.columns()
    }

    fn read(&self, place: usize) -> Result<(u8, bool), Refusal> {
        self.below.read(place)
    }

    fn write(&mut self, place: usize, code: u8, mark: bool) -> Result<(), Refusal> {
        self.calls = self.calls.wrapping_add(1);
        self.below.write(place, code, mark)
    }

    fn clear_row(&mut self, row: usize) -> Result<(), Refusal> {
        self.calls = self.calls.wrapping_add(1);
        self.below.clear_row(row)
    }
}
