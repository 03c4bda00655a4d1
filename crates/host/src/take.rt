// A terminal's state: new, and as transmissions and other effects change it. Each change leaves other parts alone, so no one
// fact says what stays.
ghost use Rattle.std.specs.Prelude.{◌≡◌, true, false, ◌||◌, Some, None, is_some, option_copied};
ghost use Rattle.std.specs.Option.{option_or};
ghost use Rattle.edit.specs.View.{at};
ghost use Rattle.transmission.specs.Text.{taken};
ghost use Rattle.host.specs.Carrying.{is_lock, is_light, took, held_of};

use crate::effect::Effect;
use crate::state::State;
use screen::interface::Screen;
use transmission::held::HeldText;
use transmission::kind::Kind;

impl State {
    // Cursor at place 0, keyboard unlocked, light off, nothing held.
    pub fn new() -> State
        ensures cursor { result.cursor ≡ 0 }
        ensures locked { result.locked ≡ false }
        ensures light { result.light ≡ false }
        ensures held { held_of result ≡ None }
    {
        State {
            cursor: 0,
            locked: false,
            light: false,
            held: None,
        }
    }

    // The text of the transmission that is held.
    pub fn held(&self) -> Option<&[u8]>
        ensures { option_copied result ≡ held_of self.now }
    {
        self.held.as_ref().map(|text| text.text())
    }

    // Whether the text of a transmission is held.
    pub fn is_held(&self) -> bool
        ensures { result ≡ is_some (held_of self.now) }
    {
        self.held.is_some()
    }

    // Takes up a transmission, in the place of what is held.
    pub fn take_up<S: Screen>(&mut self, screen: &S, kind: Kind)
        ensures cursor { self.new.cursor ≡ self.old.cursor }
        ensures locked { self.new.locked ≡ self.old.locked }
        ensures light { self.new.light ≡ self.old.light }
        ensures held { held_of self.new ≡ Some (taken kind (at (S.grid screen.now) self.old.cursor)) }
    {
        let mut text = HeldText::new();
        text.take_up(screen, self.cursor, kind);
        self.held = Some(text);
    }

    // Takes up a transmission, unless one is held.
    fn hold<S: Screen>(&mut self, screen: &S, kind: Kind)
        ensures cursor { self.new.cursor ≡ self.old.cursor }
        ensures locked { self.new.locked ≡ self.old.locked }
        ensures light { self.new.light ≡ self.old.light }
        ensures held { held_of self.new ≡ option_or (held_of self.old) (Some (taken kind (at (S.grid screen.now) self.old.cursor))) }
    {
        if !self.is_held() {
            self.take_up(screen, kind);
        }
    }

    // Takes up a transmission, unless one is held, and locks the keyboard.
    pub fn transmit<S: Screen>(&mut self, screen: &S, kind: Kind)
        ensures cursor { self.new.cursor ≡ self.old.cursor }
        ensures locked { self.new.locked ≡ true }
        ensures light { self.new.light ≡ self.old.light }
        ensures held { held_of self.new ≡ option_or (held_of self.old) (Some (taken kind (at (S.grid screen.now) self.old.cursor))) }
    {
        self.hold(screen, kind);
        self.locked = true;
    }

    // What a step does beside drawing, with the cells and the cursor as the steps before it leave them.
    pub(crate) fn note<S: Screen>(&mut self, screen: &S, effect: Option<Effect>)
        ensures cursor { self.new.cursor ≡ self.old.cursor }
        ensures locked { self.new.locked ≡ (self.old.locked || is_lock effect) }
        ensures light { self.new.light ≡ (self.old.light || is_light effect) }
        ensures held { held_of self.new ≡ option_or (held_of self.old) (took effect (at (S.grid screen.now) self.old.cursor)) }
    {
        match effect {
            None => {}
            Some(Effect::Lock) => self.locked = true,
            Some(Effect::Light) => self.light = true,
            Some(Effect::Transmit(kind)) => self.hold(screen, kind),
        }
    }
}
