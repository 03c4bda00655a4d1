// Spells cells out as characters of a text.
ghost use Rattle.std.specs.Prelude.{◌≡◌, ◌+◌, ◌<◌, ◌≤◌, false, [], ◌∷◌, ◌++◌};
ghost use Rattle.screen.specs.Cells.{cell};
ghost use Rattle.transmission.specs.Text.{is_sent, is_open_space, turn, says, sends, is_escaped};
ghost use Rattle.transmission.specs.Held.{text_of, sent_of};

use crate::held::HeldText;
use crate::kind::Kind;
use codes::{ESC, HT, SI, SO, SPACE};

impl Kind {
    pub(crate) fn sends(self, found: (u8, bool)) -> bool
        ensures { result ≡ is_sent self (cell found.0 found.1) }
    {
        self == Kind::Display || !found.1
    }

    // Whether a code is sent with ESC before it: a tab stop where all cells are sent.
    fn escapes(self, code: u8) -> bool
        ensures { result ≡ is_escaped self code }
    {
        self == Kind::Display && code == HT
    }
}

pub(crate) fn is_open_space(found: (u8, bool)) -> bool
    ensures { result ≡ is_open_space (cell found.0 found.1) }
{
    found.0 == SPACE && !found.1
}

impl HeldText {
    // An empty text.
    pub fn new() -> HeldText
        ensures { text_of result ≡ [] }
    {
        HeldText {
            characters: [0; 5766],
            len: 0,
            protected: false,
        }
    }

    // The text.
    pub fn text(&self) -> &[u8]
        ensures { result.now ≡ text_of self.now }
    {
        &self.characters[0..self.len]
    }

    pub(crate) fn clear(&mut self)
        ensures text { text_of self.new ≡ [] }
        ensures len { self.new.len ≡ 0 }
        ensures open { self.new.protected ≡ false }
    {
        self.len = 0;
        self.protected = false;
    }

    pub(crate) fn push(&mut self, character: u8)
        requires { self.old.len < 5766 }
        ensures text { text_of self.new ≡ text_of self.old ++ (character ∷ []) }
        ensures len { self.new.len ≡ self.old.len + 1 }
        ensures protected { self.new.protected ≡ self.old.protected }
    {
        self.characters[self.len] = character;
        self.len += 1;
    }

    // SO or SI where the protection changes.
    pub(crate) fn turn(&mut self, protected: bool)
        requires { self.old.len < 5766 }
        ensures text { text_of self.new ≡ text_of self.old ++ turn self.old.protected protected }
        ensures len { self.new.len ≤ self.old.len + 1 }
        ensures protected { self.new.protected ≡ protected }
    {
        if protected != self.protected {
            self.push(if protected { SO } else { SI });
            self.protected = protected;
        }
    }

    // One cell, at most three characters.
    fn spell(&mut self, found: (u8, bool), kind: Kind)
        requires { self.old.len + 3 ≤ 5766 }
        ensures sent { sent_of self.new ≡ says kind (sent_of self.old) (cell found.0 found.1) }
        ensures len { self.new.len ≤ self.old.len + 3 }
    {
        let (code, protected) = found;
        self.turn(protected);
        if kind.escapes(code) {
            self.push(ESC);
        }
        self.push(code);
    }

    // A cell, if it is one of those that are sent.
    pub(crate) fn put_cell(&mut self, found: (u8, bool), kind: Kind)
        requires { self.old.len + 3 ≤ 5766 }
        ensures sent { sent_of self.new ≡ sends kind (cell found.0 found.1 ∷ []) (sent_of self.old) }
        ensures len { self.new.len ≤ self.old.len + 3 }
    {
        if kind.sends(found) {
            self.spell(found, kind);
        }
    }
}
