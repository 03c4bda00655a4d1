// How many calls that change the screen below it takes to remove a row and to insert one, where a row has `columns` cells.
use crate::counted::Counted;
use screen::interface::Screen;
use screen::refusal::Refusal;
use turning::turning::Turning;
use window::extent::Extent;
use window::window::Window;

fn move_two<S: Screen>(screen: &mut S) {
    let _ = screen.remove_row(0);
    let _ = screen.insert_row(0);
}

// How many calls the moves make of a window of so many columns.
fn calls<S: Screen, M: FnMut(&mut Counted<Window<S>>)>(
    screen: &mut S,
    columns: usize,
    mut moves: M,
) -> Result<u64, Refusal>
    requires { M.IsAlwaysCallable moves }
{
    let rows = screen.rows();
    let extent = Extent::within(screen, rows, columns)?;
    let mut window = Window::new(screen, extent);
    let mut counted = Counted::new(&mut window);
    moves(&mut counted);
    Ok(counted.calls)
}

// By the turning layer.
pub fn turning_calls<S: Screen>(screen: &mut S, columns: usize) -> Result<u64, Refusal> {
    calls(screen, columns, |top| move_two(&mut Turning::new(top)))
}

// Cell by cell.
pub fn copying_calls<S: Screen>(screen: &mut S, columns: usize) -> Result<u64, Refusal> {
    calls(screen, columns, |top| move_two(top))
}
