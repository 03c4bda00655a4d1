// Cells that can be printed row by row.
use edit::cell::cell_at;
use screen::interface::Screen;

pub trait Cells {
    fn height(&self) -> usize;

    fn width(&self) -> usize;

    fn cell(&self, place: usize) -> (u8, bool);
}

// The cells that a screen shows.
#[derive(Clone, Copy)]
pub struct Shown<'a, S>(pub &'a S);

impl<'a, S: Screen> Cells for Shown<'a, S> {
    fn height(&self) -> usize {
        self.0.rows()
    }

    fn width(&self) -> usize {
        self.0.columns()
    }

    fn cell(&self, place: usize) -> (u8, bool) {
        cell_at(self.0, place)
    }
}
