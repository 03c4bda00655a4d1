// Random cells from a seed.
use codes::{FS, GS, HT, RS};
use screen::interface::Screen;

// A linear congruential generator.
#[derive(Clone, Copy)]
pub struct Random {
    state: u32,
}

impl Random {
    pub fn new(seed: u32) -> Random {
        Random { state: seed }
    }

    pub fn next(&mut self) -> u32 {
        self.state = self.state.wrapping_mul(1664525).wrapping_add(1013904223);
        self.state >> 16
    }
}

// A character that a cell can hold.
fn character(n: u32) -> u8 {
    match n % 99 {
        0 => HT,
        1 => FS,
        2 => GS,
        3 => RS,
        k => (0x20 + k - 4) as u8,
    }
}

// Fills a screen with random cells, and answers a random cursor place on it.
pub fn fill<S: Screen>(screen: &mut S, seed: u32) -> usize {
    let mut random = Random::new(seed);
    // as many on every screen, so that the cells of a seed stay the same
    for place in 0..1920 {
        let code = character(random.next());
        let _ = screen.write(place, code, random.next() % 2 == 0);
    }
    let cursor = random.next() as usize % 1920;
    if screen.read(cursor).is_ok() {
        cursor
    } else {
        0
    }
}

// Makes every cell an open space.
pub fn clear<S: Screen>(screen: &mut S) {
    // rows of the largest screen: one that has fewer refuses the rest
    for row in 0..24 {
        let _ = screen.clear_row(row);
    }
}
