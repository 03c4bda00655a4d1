// The receiver's record of a message.
ghost use Rattle.std.specs.Prelude.{◌≡◌, ◌≤◌, length};

// Where a message stands. A finished one stays to be read until the next octet.
#[derive(Clone, Copy, PartialEq, Eq, Debug)]
pub enum Phase {
    Idle,
    Collecting,
    Awaiting,
    Finished,
}

// The characters kept, in the first len places: memory is fixed.
#[derive(Drop)]
pub struct Kept {
    pub(crate) characters: [u8; 6000],
    pub(crate) len: usize,
}

#[derive(Drop)]
pub struct Receiver {
    pub(crate) kept: Kept,
    pub(crate) phase: Phase,
    ghost room: { length kept.characters ≡ 6000 },
    ghost fits: { kept.len ≤ 6000 },
}
