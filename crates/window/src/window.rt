ghost use Rattle.std.specs.Prelude.{◌≡◌, ℕ, ◌≤◌};
ghost use Rattle.std.specs.Borrow.{GName};
ghost use Rattle.screen.specs.Grid.{Grid};
ghost use Rattle.window.specs.Part.{windowed, windowed_sound, outside};

use crate::below::place_below;
use crate::extent::Extent;
use screen::interface::Screen;
use screen::refusal::Refusal;

// The upper left part of a screen, as much of it as there is. It has the fields and facts of an extent and not the extent:
// the borrow checker covers no type argument that holds a `&mut` beside a struct with ghost fields, as in a stack of layers.
#[derive(Drop)]
pub struct Window<'s, S> {
    below: &'s mut S,
    rows: usize,
    columns: usize,
    ghost row_least: { 2 ≤ rows },
    ghost row_most: { rows ≤ 24 },
    ghost column_least: { 1 ≤ columns },
    ghost column_most: { columns ≤ 80 },
}

impl<'s, S: Screen> Window<'s, S> {
    pub fn new(below: &'s mut S, extent: Extent) -> Window<'s, S>
        ensures name { result.below.ghost_name ≡ below.entry.ghost_name }
        ensures below { result.below.now ≡ below.old }
        ensures rows { result.rows ≡ extent.rows }
        ensures columns { result.columns ≡ extent.columns }
    {
        Window {
            below,
            rows: extent.rows,
            columns: extent.columns,
        }
    }

    // The screen below, as it stands.
    pub fn below(&self) -> &S
        ensures { result.now ≡ self.now.below.now }
    {
        &*self.below
    }
}

impl<'s, S: Screen> Screen for Window<'s, S> {
    ghost grid = { λ t. windowed t.rows t.columns (S.Screen.grid t.below.now) };

    // the screen below, what it leaves untouched, the window's size, and what lies outside it below
    ghost Rest = { GName × (S.Screen.Rest × ((ℕ × ℕ) × Grid)) };

    ghost rest = { λ t. (t.below.ghost_name, (S.Screen.rest t.below.now, ((t.rows, t.columns), outside t.rows t.columns (S.Screen.grid t.below.now)))) };

    ghost sound = { λ t. windowed_sound t.rows t.columns (S.Screen.grid t.below.now) (record { row_least = t.row_least; row_most = t.row_most; column_least = t.column_least; column_most = t.column_most }) (S.Screen.sound t.below.now) };

    fn rows(&self) -> usize {
        self.rows.min(self.below.rows())
    }

    fn columns(&self) -> usize {
        self.columns.min(self.below.columns())
    }

    fn read(&self, place: usize) -> Result<(u8, bool), Refusal> {
        let from = place_below(self.below, self.rows, self.columns, place)?;
        self.below.read(from)
    }

    fn write(&mut self, place: usize, code: u8, mark: bool) -> Result<(), Refusal> {
        let rows = self.rows;
        let columns = self.columns;
        let to = place_below(self.below, rows, columns, place)?;
        self.below.write(to, code, mark)
    }
}
