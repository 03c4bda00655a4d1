ghost use Rattle.std.specs.Prelude.{◌≡◌, ℕ, ◌-◌};
ghost use Rattle.std.specs.Borrow.{GName};
ghost use Rattle.screen.specs.Grid.{has_row, removed, inserted};
ghost use Rattle.screen.specs.Answers.{done_if};
ghost use Rattle.turning.specs.Order.{Permutes, turned_by, turned_sound, freed_below};

use crate::below::place_below;
use crate::order::Order;
use screen::interface::Screen;
use screen::refusal::Refusal;

// A screen that keeps an order of rows over the screen below. Its invariant stands here and not in the order: the
// borrow checker covers no type argument that holds a `&mut` beside a struct with ghost fields, as in a stack of layers.
#[derive(Drop)]
pub struct Turning<'s, S> {
    below: &'s mut S,
    order: Order,
    ghost ordered: { Permutes order.at order.rows },
}

impl<'s, S: Screen> Turning<'s, S> {
    // The screen below as it stands, with its rows in their order.
    pub fn new(below: &'s mut S) -> Turning<'s, S>
        ensures name { result.below.ghost_name ≡ below.entry.ghost_name }
        ensures below { result.below.now ≡ below.old }
        ensures grid { turned_by result.order.at result.order.rows (S.grid result.below.now) ≡ S.grid below.old }
    {
        let rows = below.rows();
        let order = Order::natural(rows);
        Turning { below, order }
    }

    // The screen below, as it stands.
    pub fn below(&self) -> &S
        ensures { result.now ≡ self.now.below.now }
    {
        &*self.below
    }
}

impl<'s, S: Screen> Screen for Turning<'s, S> {
    ghost grid = { λ t. turned_by t.order.at t.order.rows (S.Screen.grid t.below.now) };

    // the screen below, and what it leaves untouched
    ghost Rest = { GName × S.Screen.Rest };

    ghost rest = { λ t. (t.below.ghost_name, S.Screen.rest t.below.now) };

    ghost sound = { λ t. turned_sound t.order.at t.order.rows (S.Screen.grid t.below.now) t.ordered (S.Screen.sound t.below.now) };

    fn rows(&self) -> usize {
        self.below.rows()
    }

    fn columns(&self) -> usize {
        self.below.columns()
    }

    fn read(&self, place: usize) -> Result<(u8, bool), Refusal> {
        let from = place_below(self.below, self.order, place)?;
        self.below.read(from)
    }

    fn write(&mut self, place: usize, code: u8, mark: bool) -> Result<(), Refusal> {
        let to = place_below(self.below, self.order, place)?;
        self.below.write(to, code, mark)
    }

    fn clear_row(&mut self, row: usize) -> Result<(), Refusal> {
        let rows = self.below.rows();
        if row >= rows {
            return Err(Refusal::OffScreen);
        }
        let order = self.order.fitted(rows);
        self.below.clear_row(order.row(row))
    }

    // moves no cell: the row below that is freed becomes the last row
    fn remove_row(&mut self, row: usize) -> Result<(), Refusal>
        ensures rest { ◌≡◌ {A = GName × S.Screen.Rest} (self.new.below.ghost_name, S.rest self.new.below.now) (self.old.below.ghost_name, S.rest self.old.below.now) }
        ensures answer { result ≡ done_if (has_row (S.grid self.old.below.now) row) }
        ensures grid { turned_by self.new.order.at self.new.order.rows (S.grid self.new.below.now) ≡ removed (turned_by self.old.order.at self.old.order.rows (S.grid self.old.below.now)) row }
        ensures below { S.grid self.new.below.now ≡ freed_below self.old.order.at self.old.order.rows (S.grid self.old.below.now) row row }
    {
        let rows = self.below.rows();
        if row >= rows {
            return Err(Refusal::OffScreen);
        }
        let order = self.order.fitted(rows);
        let freed = order.row(row);
        self.order = order.turned_up(row);
        self.below.clear_row(freed)
    }

    // moves no cell: the row below that the last row showed becomes the new one
    fn insert_row(&mut self, row: usize) -> Result<(), Refusal>
        ensures rest { ◌≡◌ {A = GName × S.Screen.Rest} (self.new.below.ghost_name, S.rest self.new.below.now) (self.old.below.ghost_name, S.rest self.old.below.now) }
        ensures answer { result ≡ done_if (has_row (S.grid self.old.below.now) row) }
        ensures grid { turned_by self.new.order.at self.new.order.rows (S.grid self.new.below.now) ≡ inserted (turned_by self.old.order.at self.old.order.rows (S.grid self.old.below.now)) row }
        ensures below { S.grid self.new.below.now ≡ freed_below self.old.order.at self.old.order.rows (S.grid self.old.below.now) row ((S.grid self.old.below.now).rows - 1) }
    {
        let rows = self.below.rows();
        if row >= rows {
            return Err(Refusal::OffScreen);
        }
        let order = self.order.fitted(rows);
        let freed = order.row(rows - 1);
        self.order = order.turned_down(row);
        self.below.clear_row(freed)
    }
}
