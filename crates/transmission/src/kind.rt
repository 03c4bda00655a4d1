// Which cells a transmission sends.
#[derive(Clone, Copy, PartialEq, Eq, Debug)]
pub enum Kind {
    // the open cells: TRANSMIT and DC1
    Open,
    // all cells, protection shown: TRANSMIT DISPLAY and ESC DC1
    Display,
}
