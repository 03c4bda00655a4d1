// What a station's reply says after its addresses, where its codes tell it from the host's messages.
ghost use Rattle.std.specs.Prelude.{◌≡◌};
ghost use Rattle.capture.specs.Replies.{is_call, reply_in};
ghost use Rattle.capture.specs.Shown.{reply_of};

use codes::{BEL, DLE, ENQ, ETX, STX};
use message::ACKNOWLEDGE;

// An acknowledgement by itself has the codes of a poll with acknowledgement, and a text by itself those of a host text.
#[derive(Clone, Copy, PartialEq, Eq, Debug)]
pub enum Reply<'a> {
    // DLE ENQ: the reply before is still to be acknowledged
    Enquiry,
    Call(u8),
    AcknowledgedCall(u8),
    AcknowledgedText(&'a [u8]),
}

// MESSAGE WAIT and the four function keys.
fn is_call(code: u8) -> bool
    ensures { result ≡ is_call code }
{
    matches!(code, BEL | b'7' | b'G' | b'W' | b'g')
}

impl<'a> Reply<'a> {
    pub fn read(tail: &'a [u8]) -> Option<Reply<'a>>
        ensures { reply_of result ≡ reply_in tail.now }
    {
        match tail {
            [DLE, ENQ, ETX] => Some(Reply::Enquiry),
            [call, ETX] if is_call(*call) => Some(Reply::Call(*call)),
            [DLE, ACKNOWLEDGE, call, ETX] if is_call(*call) => Some(Reply::AcknowledgedCall(*call)),
            [DLE, ACKNOWLEDGE, STX, text @ .., ETX] => Some(Reply::AcknowledgedText(text)),
            _ => None,
        }
    }
}
