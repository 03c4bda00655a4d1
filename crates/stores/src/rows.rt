// Rows in the first part of a list: cleared, removed and inserted, with whole rows moved at once.
ghost use Rattle.std.specs.Prelude.{◌≡◌, ℕ, ◌*◌, ◌<◌, ◌≤◌, length};
ghost use Rattle.screen.specs.Rows.{clear_row, remove_row, insert_row};
ghost use Rattle.stores.specs.Front.{in_front};

// The first octets of a list in rows of `width`, where `filler` makes a new row.
#[derive(Drop)]
pub(crate) struct Rows<'a> {
    items: &'a mut [u8],
    rows: usize,
    width: usize,
    filler: u8,
    ghost room: { rows * width ≤ length items.now },
}

impl<'a> Rows<'a> {
    pub fn new(items: &'a mut [u8], rows: usize, width: usize, filler: u8) -> Rows<'a>
        requires { rows * width ≤ length items.old }
        ensures name { result.items.ghost_name ≡ items.entry.ghost_name }
        ensures items { result.items.now ≡ items.old }
        ensures rows { result.rows ≡ rows }
        ensures width { result.width ≡ width }
        ensures filler { result.filler ≡ filler }
    {
        Rows {
            items,
            rows,
            width,
            filler,
        }
    }

    pub fn clear(self, row: usize)
        requires { row < self.rows }
        ensures { self.exit.0.now ≡ in_front (self.entry.rows * self.entry.width) (clear_row self.entry.filler self.entry.width row) self.entry.items.now }
    {
        let Rows {
            items,
            width,
            filler,
            ..
        } = self;
        let first = row * width;
        items[first..first + width].fill(filler);
    }

    pub fn remove(self, row: usize)
        requires { row < self.rows }
        ensures { self.exit.0.now ≡ in_front (self.entry.rows * self.entry.width) (remove_row self.entry.filler self.entry.width row) self.entry.items.now }
    {
        let Rows {
            items,
            rows,
            width,
            filler,
        } = self;
        let first = row * width;
        let end = rows * width;
        items.copy_within(first + width..end, first);
        items[end - width..end].fill(filler);
    }

    pub fn insert(self, row: usize)
        requires { row < self.rows }
        ensures { self.exit.0.now ≡ in_front (self.entry.rows * self.entry.width) (insert_row self.entry.filler self.entry.width row) self.entry.items.now }
    {
        let Rows {
            items,
            rows,
            width,
            filler,
        } = self;
        let first = row * width;
        let end = rows * width;
        items.copy_within(first..end - width, first + width);
        items[first..first + width].fill(filler);
    }
}
