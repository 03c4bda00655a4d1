use crate::bench::{copying_calls, turning_calls};
use crate::script::{same_cells, script};
use screen::interface::Screen;
use std::test::Fail;
use stores::map_store::MapStore;
use stores::size::Size;
use stores::word_store::WordStore;
use turning::turning::Turning;
use window::extent::Extent;
use window::window::Window;

#[test]
fn stores_agree(rt: HostRuntime) -> Result<(), Fail> {
    let mut area = [0xffffu16; 1000];
    let size = Size::in_area(&area, 12, 80)?;
    let mut words = WordStore::new(&mut area, size);
    let mut map = MapStore::new(size);
    assert_eq!(rt; script(&mut words), 4);
    assert_eq!(rt; script(&mut map), 4);
    assert!(rt; same_cells(&words, &map));
    assert_eq!(rt; area[960], 0xffff);
    Ok(())
}

#[test]
fn turned_store_agrees(rt: HostRuntime) -> Result<(), Fail> {
    let size = Size::new(16, 64)?;
    let mut plain = MapStore::new(size);
    let mut store = MapStore::new(size);
    let mut top = Turning::new(&mut store);
    assert_eq!(rt; script(&mut plain), 4);
    assert_eq!(rt; script(&mut top), 4);
    assert!(rt; same_cells(&plain, &top));
    Ok(())
}

#[test]
fn window_agrees_with_a_store_of_its_size(rt: HostRuntime) -> Result<(), Fail> {
    let mut plain = MapStore::new(Size::new(16, 64)?);
    let mut store = MapStore::new(Size::new(24, 80)?);
    let extent = Extent::within(&store, 16, 64)?;
    let mut window = Window::new(&mut store, extent);
    assert_eq!(rt; script(&mut plain), 4);
    assert_eq!(rt; script(&mut window), 4);
    assert!(rt; same_cells(&plain, &window));
    Ok(())
}

#[test]
fn stack_of_three_agrees(rt: HostRuntime) -> Result<(), Fail> {
    let mut plain = MapStore::new(Size::new(12, 80)?);
    let mut store = MapStore::new(Size::new(24, 80)?);
    let mut lower = Turning::new(&mut store);
    let _ = lower.remove_row(3);
    let extent = Extent::within(&lower, 12, 80)?;
    let mut window = Window::new(&mut lower, extent);
    let mut top = Turning::new(&mut window);
    assert_eq!(rt; script(&mut plain), 4);
    assert_eq!(rt; script(&mut top), 4);
    assert!(rt; same_cells(&plain, &top));
    Ok(())
}

#[test]
fn script_leaves_these_cells(rt: HostRuntime) -> Result<(), Fail> {
    let mut store = MapStore::new(Size::new(12, 80)?);
    assert_eq!(rt; script(&mut store), 4);
    assert_eq!(rt; store.read(80)?, (b'A', true));
    assert_eq!(rt; store.read(81)?, (b'B', false));
    assert_eq!(rt; store.read(85)?, (b'A', true));
    assert_eq!(rt; store.read(0)?, (b' ', false));
    assert_eq!(rt; store.read(959)?, (codes::FS, true));
    Ok(())
}

// On 24 rows: the turning layer makes two calls at every width, and 46 cells a column are moved without it.
#[test]
fn turning_does_not_grow_with_the_columns(rt: HostRuntime) -> Result<(), Fail> {
    let mut store = MapStore::new(Size::new(24, 80)?);
    assert_eq!(rt; turning_calls(&mut store, 1)?, 2);
    assert_eq!(rt; turning_calls(&mut store, 80)?, 2);
    assert_eq!(rt; copying_calls(&mut store, 1)?, 48);
    assert_eq!(rt; copying_calls(&mut store, 80)?, 3682);
    Ok(())
}
