// What a terminal has beside its screen.
use transmission::held::HeldText;

#[derive(Drop)]
pub struct State {
    pub cursor: usize,
    pub locked: bool,
    pub light: bool,
    // the text of a transmission
    pub held: Option<HeldText>,
}
