// What a key is to do, and when it is refused.
ghost use Rattle.std.specs.Prelude.{◌≡◌};
ghost use Rattle.console.specs.Keys.{key_action, guarded, decide_key, takes_up};

use crate::fault::KeyRefusal;
use codes::{BEL, HT, RS};
use edit::edits::{Change, Edit, Motion, Reach};
use transmission::kind::Kind;

#[derive(Clone, Copy, PartialEq, Eq, Debug)]
pub enum KeyAction {
    // into the first open cell
    Store(u8),
    Edit(Edit),
    Transmit(Kind),
    Call(u8),
    Unlock,
}

// What the guards of a key look at.
#[derive(Clone, Copy, PartialEq, Eq, Debug)]
pub struct Guards {
    pub locked: bool,
    // some cell is open
    pub any_open: bool,
    // a text is held
    pub held: bool,
    // a call is held
    pub called: bool,
}

impl KeyAction {
    // The action of a key, if there is such a key.
    pub fn of(key: u8) -> Option<KeyAction>
        ensures { result ≡ key_action key }
    {
        let action = match key {
            0x20..=0x7e => KeyAction::Store(key),
            0x80 => KeyAction::Edit(Edit::Move(Motion::Home)),
            0x81 => KeyAction::Edit(Edit::Move(Motion::Up)),
            0x82 => KeyAction::Edit(Edit::Move(Motion::Left)),
            0x83 => KeyAction::Edit(Edit::Move(Motion::Right)),
            0x84 => KeyAction::Edit(Edit::Move(Motion::Down)),
            0x85 => KeyAction::Edit(Edit::Move(Motion::Return)),
            0x86 => KeyAction::Edit(Edit::Move(Motion::Tab)),
            0x87 => KeyAction::Store(HT),
            0x88 => KeyAction::Store(RS),
            0x89 => KeyAction::Edit(Edit::Change(Change::EraseOpen)),
            0x8a => KeyAction::Edit(Edit::Change(Change::Erase(Reach::Row))),
            0x8b => KeyAction::Edit(Edit::Change(Change::Erase(Reach::Display))),
            0x8c => KeyAction::Edit(Edit::Change(Change::Insert(Reach::Row))),
            0x8d => KeyAction::Edit(Edit::Change(Change::Delete(Reach::Row))),
            0x8e => KeyAction::Edit(Edit::Change(Change::Insert(Reach::Display))),
            0x8f => KeyAction::Edit(Edit::Change(Change::Delete(Reach::Display))),
            0x90 => KeyAction::Transmit(Kind::Open),
            0x91 => KeyAction::Transmit(Kind::Display),
            0x92 => KeyAction::Call(BEL),
            0x93 => KeyAction::Call(b'7'),
            0x94 => KeyAction::Call(b'G'),
            0x95 => KeyAction::Call(b'W'),
            0x96 => KeyAction::Call(b'g'),
            0x97 => KeyAction::Unlock,
            0x00..=0x1f | 0x7f | 0x98..=0xff => return None,
        };
        Some(action)
    }

    // Whether the action takes up a transmission.
    pub fn takes_up(self) -> bool
        ensures { result ≡ takes_up self }
    {
        matches!(self, KeyAction::Transmit(_))
    }

    // The action, unless a guard refuses it.
    pub fn guarded(self, guards: Guards) -> Result<KeyAction, KeyRefusal>
        ensures { result ≡ guarded guards.locked guards.any_open guards.held guards.called self }
    {
        match self {
            KeyAction::Unlock if guards.held => Err(KeyRefusal::StillHeld),
            KeyAction::Unlock => Ok(self),
            _ if guards.locked => Err(KeyRefusal::Locked),
            KeyAction::Store(_) if !guards.any_open => Err(KeyRefusal::NoOpenCell),
            KeyAction::Call(_) if guards.called => Err(KeyRefusal::CallHeld),
            _ => Ok(self),
        }
    }

    // What a key does now.
    pub fn decide(key: u8, guards: Guards) -> Result<KeyAction, KeyRefusal>
        ensures { result ≡ decide_key guards.locked guards.any_open guards.held guards.called key }
    {
        let action = KeyAction::of(key).ok_or(KeyRefusal::NoSuchKey)?;
        action.guarded(guards)
    }
}
