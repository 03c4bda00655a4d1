// Carries out a full form of 24 rows of 80 as often as the argument says, and prints a sum over the cells that it leaves.
// bench/run compares its time with that of the same work in plain Rust.
#![tactic(auto)]

use codes::{ESC, HT, SI, SO, SPACE, VT};
use edit::cell::{cell_at, cell_count};
use host::carry::carry_out;
use host::state::State;
use screen::interface::Screen;
use std::alloc::{AllocError, Global};
use std::{env, io};
use stores::map_store::MapStore;
use stores::size::Size;

// Each row has a caption, a protected tab stop, and a field filled with letters.
fn form(heap: Global) -> Result<Vec<u8>, AllocError> {
    let mut text = Vec::new(heap);
    text.extend_from_slice(&[ESC, b'M'])?;
    for row in 0..24u8 {
        text.extend_from_slice(&[ESC, VT, SPACE + row, SPACE, SI, SO])?;
        text.extend((0..19u8).map(|column| b'A' + (row + column) % 26))?;
        text.extend_from_slice(&[ESC, HT, SI])?;
        text.extend((0..60u8).map(|column| b'a' + (row + column) % 26))?;
    }
    Ok(text)
}

fn cell_sum<S: Screen>(screen: &S) -> u64 {
    (0..cell_count(screen)).fold(0u64, |sum, place| {
        let (code, protected) = cell_at(screen, place);
        sum.wrapping_mul(31)
            .wrapping_add(u64::from(code) + u64::from(protected))
    })
}

fn main(rt: HostRuntime) -> io::Result<()> {
    let text = form(rt.alloc())?;
    let rounds = env::args(&rt)?
        .filter_map(|word| word.as_str().parse::<u32>().ok())
        .last()
        .unwrap_or(3);
    if let Ok(size) = Size::new(24, 80) {
        let mut store = MapStore::new(size);
        let mut state = State::new();
        for _ in 0..rounds {
            let _ = carry_out(&mut store, &mut state, text.as_slice());
        }
        let (sum, cursor, octets) = (cell_sum(&store), state.cursor, text.len());
        println!(rt; "octets {octets} cursor {cursor} sum {sum}")?;
    }
    Ok(())
}
