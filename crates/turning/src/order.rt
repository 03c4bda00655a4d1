// An order of rows, and its turns.
ghost use Rattle.std.specs.Prelude.{◌≡◌, ℕ, ◌<◌, ◌≤◌, slice_index};
ghost use Rattle.turning.specs.Order.{Permutes, Moved, up, down, natural, fitted};

// An order of the first `rows` rows: the row below of each row. An array and a number, since an order is copied.
#[derive(Clone, Copy)]
pub struct Order {
    pub(crate) at: [u8; 24],
    pub(crate) rows: usize,
}

impl Order {
    // The rows in their own order.
    pub(crate) fn natural(rows: usize) -> Order
        ensures at { result.at ≡ natural }
        ensures rows { result.rows ≡ rows }
    {
        let at = [
            0, 1, 2, 3, 4, 5, 6, 7, 8, 9, 10, 11, 12, 13, 14, 15, 16, 17, 18, 19, 20, 21, 22, 23,
        ];
        Order { at, rows }
    }

    // The order of `rows` rows: one kept for another number of rows counts as the natural order.
    pub(crate) fn fitted(self, rows: usize) -> Order
        ensures at { result.at ≡ fitted self.at self.rows rows }
        ensures rows { result.rows ≡ rows }
    {
        if self.rows == rows {
            self
        } else {
            Order::natural(rows)
        }
    }

    // The row below of the row `row`.
    pub(crate) fn row(self, row: usize) -> usize
        requires order { Permutes self.at self.rows }
        requires on { row < self.rows }
        ensures { result ≡ slice_index self.at row }
    {
        usize::from(self.at[row])
    }

    // The row `row` goes to the end, and those after it one up.
    pub(crate) fn turned_up(self, row: usize) -> Order
        requires { (row < self.rows) × (self.rows ≤ 24) }
        ensures moved { Moved (up row self.rows) self.at self.rows result.at }
        ensures rows { result.rows ≡ self.rows }
    {
        let rows = self.rows;
        let mut at = self.at;
        at[row..rows].rotate_left(1);
        Order { at, rows }
    }

    // The last row goes to `row`, and those from there on one down.
    pub(crate) fn turned_down(self, row: usize) -> Order
        requires { (row < self.rows) × (self.rows ≤ 24) }
        ensures moved { Moved (down row self.rows) self.at self.rows result.at }
        ensures rows { result.rows ≡ self.rows }
    {
        let rows = self.rows;
        let mut at = self.at;
        at[row..rows].rotate_right(1);
        Order { at, rows }
    }
}
