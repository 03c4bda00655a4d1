// The script over stacks of layers. Each layer gives the screen below back, so that the contracts tell what the caller's area holds then.
ghost use Rattle.std.specs.Prelude.{◌≡◌, drop};
ghost use Rattle.window.specs.Part.{outside};
ghost use Rattle.screen_tests.specs.Size.{SameSize};

use crate::script::script;
use screen::interface::Screen;
use screen::refusal::Refusal;
use stores::size::Size;
use stores::word_store::WordStore;
use turning::turning::Turning;
use window::extent::Extent;
use window::window::Window;

// Through a turning layer.
pub fn turned<S: Screen>(screen: &mut S) -> u8
    ensures rest { S.rest screen.new ≡ S.rest screen.old }
    ensures size { SameSize (S.grid screen.old) (S.grid screen.new) }
{
    let mut top = Turning::new(screen);
    script(&mut top)
}

// In a window with a turning layer over it: the cells outside the window stay.
pub fn in_window<S: Screen>(screen: &mut S, rows: usize, columns: usize) -> Result<u8, Refusal>
    ensures rest { S.rest screen.new ≡ S.rest screen.old }
    ensures size { SameSize (S.grid screen.old) (S.grid screen.new) }
    ensures outside { outside rows columns (S.grid screen.new) ≡ outside rows columns (S.grid screen.old) }
{
    let extent = Extent::within(screen, rows, columns)?;
    let mut window = Window::new(screen, extent);
    Ok(turned(&mut window))
}

// In a window over a turning layer, with another over it.
pub fn in_turned_window<S: Screen>(
    screen: &mut S,
    rows: usize,
    columns: usize,
) -> Result<u8, Refusal>
    ensures rest { S.rest screen.new ≡ S.rest screen.old }
    ensures size { SameSize (S.grid screen.old) (S.grid screen.new) }
{
    let mut turned = Turning::new(screen);
    in_window(&mut turned, rows, columns)
}

// The same over words: those beyond the cells stay.
pub fn on_words(area: &mut [u16], rows: usize, columns: usize) -> Result<u8, Refusal>
    ensures { drop 960 area.new ≡ drop 960 area.old }
{
    let size = Size::in_area(area, 12, 80)?;
    let mut words = WordStore::new(area, size);
    in_turned_window(&mut words, rows, columns)
}
