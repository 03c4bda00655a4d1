// A terminal over any line and any screen.
use receiver::message::Receiver;
use station::identity::Identity;
use station::state::Console;

// The screen is held by reference: its cells are the terminal's, and there is no copy of them.
#[derive(Drop)]
pub struct Terminal<'s, L, S> {
    pub(crate) line: L,
    pub(crate) receiver: Receiver,
    pub(crate) identity: Identity,
    pub(crate) console: Console,
    pub(crate) screen: &'s mut S,
}
