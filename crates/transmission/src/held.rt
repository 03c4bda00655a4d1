// The text of a transmission, from its taking up on.
ghost use Rattle.std.specs.Prelude.{◌≡◌, ◌≤◌, length};

// The text stands in the first len places: memory is fixed. On a screen of 24 rows of 80 the longest one takes 5,766.
#[derive(Drop)]
pub struct HeldText {
    pub(crate) characters: [u8; 5766],
    pub(crate) len: usize,
    // whether the text ends protected: after an SO with no SI yet
    pub(crate) protected: bool,
    ghost room: { length characters ≡ 5766 },
    ghost fits: { len ≤ 5766 },
}
