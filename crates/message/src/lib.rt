// The forms of a message: RID SID DID, and then a poll, a poll with acknowledgement, a repeat request or a text.
#![tactic(auto)]

ghost use Rattle.std.specs.Prelude.{◌≡◌};
ghost use Rattle.message.specs.Forms.{form_in, message_in};
ghost use Rattle.message.specs.Shown.{form_of, message_of};

use codes::{DLE, ETX, NAK, STX};

// The second character of an acknowledgement, DLE 31.
pub const ACKNOWLEDGE: u8 = 0x31;

// What follows the addresses.
#[derive(Clone, Copy, PartialEq, Eq, Debug)]
pub enum Form<'a> {
    Poll,
    PollAcknowledge,
    Repeat,
    Text(&'a [u8]),
}

// A message with its addresses, whatever stations they name.
#[derive(Clone, Copy, PartialEq, Eq, Debug)]
pub struct Message<'a> {
    pub rid: u8,
    pub sid: u8,
    pub did: u8,
    pub form: Form<'a>,
}

impl<'a> Form<'a> {
    // The form of what follows the addresses, if it has one.
    pub fn read(tail: &'a [u8]) -> Option<Form<'a>>
        ensures { form_of result ≡ form_in tail.now }
    {
        match tail {
            [ETX] => Some(Form::Poll),
            [DLE, ACKNOWLEDGE, ETX] => Some(Form::PollAcknowledge),
            [DLE, NAK, ETX] => Some(Form::Repeat),
            [STX, text @ .., ETX] => Some(Form::Text(text)),
            _ => None,
        }
    }
}

impl<'a> Message<'a> {
    // The message in the characters from RID to ETX, if they have one of the four forms.
    pub fn read(characters: &'a [u8]) -> Option<Message<'a>>
        ensures { message_of result ≡ message_in characters.now }
    {
        let &[rid, sid, did, ref tail @ ..] = characters else {
            return None;
        };
        Some(Message {
            rid,
            sid,
            did,
            form: Form::read(tail)?,
        })
    }
}
