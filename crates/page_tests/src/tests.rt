use crate::damage::every_damage;
use crate::trips::there_and_back;
use page::read::read_page;
use page::reader::Reader;
use page::refusal::Refusal;
use page::write::write_page;
use std::alloc::Global;
use std::test::Fail;
use stores::map_store::MapStore;
use stores::size::Size;
use stores::word_store::WordStore;
use window::extent::Extent;
use window::window::Window;

// Both trials on a store of this size.
fn tried(alloc: Global, rows: usize, columns: usize, seed: u32) -> Result<bool, Fail> {
    let mut store = MapStore::new(Size::new(rows, columns)?);
    Ok(there_and_back(&mut store, seed)? && every_damage(alloc, &mut store, seed)?)
}

#[test]
fn every_size(rt: HostRuntime) -> Result<(), Fail> {
    assert!(rt; tried(rt.alloc(), 12, 80, 1)?);
    assert!(rt; tried(rt.alloc(), 16, 64, 2)?);
    assert!(rt; tried(rt.alloc(), 24, 64, 3)?);
    assert!(rt; tried(rt.alloc(), 24, 80, 4)?);
    Ok(())
}

#[test]
fn a_window(rt: HostRuntime) -> Result<(), Fail> {
    let mut store = MapStore::new(Size::new(24, 80)?);
    let extent = Extent::within(&store, 5, 7)?;
    let mut window = Window::new(&mut store, extent);
    assert!(rt; there_and_back(&mut window, 5)?);
    assert!(rt; every_damage(rt.alloc(), &mut window, 6)?);
    Ok(())
}

#[test]
fn a_word_store(rt: HostRuntime) -> Result<(), Fail> {
    let mut area = [0u16; 960];
    let size = Size::in_area(&area, 12, 80)?;
    let mut store = WordStore::new(&mut area, size);
    assert!(rt; there_and_back(&mut store, 7)?);
    Ok(())
}

// Of an empty 12 × 80 screen: 01 0C 50 00, and 960 times 20.
#[test]
fn headers(rt: HostRuntime) -> Result<(), Fail> {
    let mut store = MapStore::new(Size::new(12, 80)?);
    let mut page = [0; 964];
    assert_eq!(rt; write_page(&store, 960, &mut page), Err(Refusal::OffScreen));
    assert_eq!(rt; write_page(&store, 0, &mut page), Ok(964));
    assert_eq!(rt;
        [page[0], page[1], page[2], page[3]],
        [0x01, 0x0c, 0x50, 0x00]
    );
    page[0] = 0x02;
    assert_eq!(rt; read_page(&page, &mut store), Err(Refusal::WrongNumber));
    page[0] = 0x01;
    page[1] = 0x19;
    assert_eq!(rt; read_page(&page, &mut store), Err(Refusal::WrongNumber));
    page[1] = 0x0c;
    page[2] = 0x51;
    assert_eq!(rt; read_page(&page, &mut store), Err(Refusal::WrongNumber));
    page[2] = 0x50;
    assert_eq!(rt; read_page(&page, &mut store), Ok(0));
    Ok(())
}

#[test]
fn another_size(rt: HostRuntime) -> Result<(), Fail> {
    let store = MapStore::new(Size::new(12, 80)?);
    let mut other = MapStore::new(Size::new(16, 64)?);
    let mut page = [0; 964];
    assert_eq!(rt; write_page(&store, 959, &mut page), Err(Refusal::ShortArea));
    assert_eq!(rt; write_page(&store, 5, &mut page), Ok(964));
    assert_eq!(rt; read_page(&page, &mut other), Err(Refusal::WrongSize));
    Ok(())
}

#[test]
fn numbers(rt: HostRuntime) {
    assert_eq!(rt; number(&[0xac, 0x02]), Ok(300));
    assert_eq!(rt; number(&[0x81, 0x00]), Err(Refusal::WrongNumber));
    assert_eq!(rt; number(&[0x81]), Err(Refusal::CutShort));
    assert_eq!(rt; number(&[0x81, 0x80]), Err(Refusal::WrongNumber));
}

// The number that octets begin with.
fn number(octets: &[u8]) -> Result<usize, Refusal> {
    Reader::new(octets).number()
}
