// A station's identity.
#[derive(Clone, Copy, PartialEq, Eq, Debug)]
pub struct Identity {
    pub rid: u8,
    pub sid: u8,
}
