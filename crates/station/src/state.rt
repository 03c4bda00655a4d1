// What a terminal has beside its screen, its line and its receiver.
use console::outstanding::Outstanding;
use host::state::State;

#[derive(Drop)]
pub struct Console {
    // the cursor, the keyboard's lock, the message light and the held text
    pub host: State,
    // the call that waits for its acknowledgement
    pub call: Option<u8>,
    // the reply that is still to be acknowledged
    pub outstanding: Option<Outstanding>,
    // a host text was carried out since the last fresh acknowledgement
    pub due: bool,
}
