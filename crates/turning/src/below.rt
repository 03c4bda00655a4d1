// Where a place lies on the screen below.
ghost use Rattle.std.specs.Prelude.{◌≡◌, ℕ};
ghost use Rattle.screen.specs.Grid.{has_place};
ghost use Rattle.screen.specs.Answers.{on_screen};
ghost use Rattle.turning.specs.Order.{Permutes, fitted, under, turned_by};

use crate::order::Order;
use screen::interface::Screen;
use screen::refusal::Refusal;

// The place below of a place.
pub(crate) fn place_below<S: Screen>(
    below: &S,
    order: Order,
    place: usize,
) -> Result<usize, Refusal>
    requires { Permutes order.at order.rows }
    ensures { result ≡ on_screen (has_place (turned_by order.at order.rows (S.grid below.now)) place) (under (fitted order.at order.rows (S.grid below.now).rows) (S.grid below.now).columns place) }
{
    let (row, column) = below.split(place)?;
    let rows = below.rows();
    let to = order.fitted(rows).row(row);
    below.place(to, column)
}
