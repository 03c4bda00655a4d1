// What a step of a host text may do beside drawing.
use transmission::kind::Kind;

#[derive(Clone, Copy, PartialEq, Eq, Debug)]
pub enum Effect {
    // a lock code: the keyboard is locked after the text
    Lock,
    // the message light goes on
    Light,
    // a transmission
    Transmit(Kind),
}
