// What a whole message is to do, and when it is refused.
ghost use Rattle.std.specs.Prelude.{◌≡◌};
ghost use Rattle.message.specs.Shown.{the_form, the_message};
ghost use Rattle.console.specs.Messages.{form_action, is_own, decide_message};
ghost use Rattle.station.specs.Shown.{action_of};

use crate::identity::Identity;
use console::fault::MessageFault;
use console::outstanding::Outstanding;
use message::{Form, Message};

// The device identifier of a terminal.
pub const DID: u8 = 0x70;

// The station identifier that a poll of any station carries.
pub const GENERAL: u8 = 0x50;

#[derive(Clone, Copy, PartialEq, Eq, Debug)]
pub enum MessageAction<'a> {
    // answers a poll
    Poll { acknowledges: bool },
    // sends this reply again
    Repeat(Outstanding),
    // carries out a text
    CarryOut(&'a [u8]),
}

impl Identity {
    // Whether a message is for this station.
    pub fn owns(self, message: Message) -> bool
        ensures { result ≡ is_own self.identifiers (the_message message.entry) }
    {
        let general = message.sid == GENERAL
            && matches!(message.form, Form::Poll | Form::PollAcknowledge);
        let own = message.sid == self.identifiers.sid || general;
        message.rid == self.identifiers.rid && message.did == DID && own
    }
}

impl<'a> MessageAction<'a> {
    // What a message of this form does, with this reply outstanding.
    fn of(
        form: Form<'a>,
        outstanding: Option<Outstanding>,
    ) -> Result<MessageAction<'a>, MessageFault>
        ensures { action_of result ≡ form_action (the_form form.entry) outstanding }
    {
        match form {
            Form::Poll => Ok(MessageAction::Poll {
                acknowledges: false,
            }),
            Form::PollAcknowledge => Ok(MessageAction::Poll { acknowledges: true }),
            Form::Repeat => {
                let reply = outstanding.ok_or(MessageFault::NothingToRepeat)?;
                Ok(MessageAction::Repeat(reply))
            }
            Form::Text(text) => Ok(MessageAction::CarryOut(text)),
        }
    }

    // What the message in these characters does at this station.
    pub fn decide(
        identity: Identity,
        outstanding: Option<Outstanding>,
        characters: &'a [u8],
    ) -> Result<MessageAction<'a>, MessageFault>
        ensures { action_of result ≡ decide_message identity.identifiers outstanding characters.now }
    {
        let message = Message::read(characters).ok_or(MessageFault::UnknownForm)?;
        if !identity.owns(message) {
            return Err(MessageFault::OtherStation);
        }
        MessageAction::of(message.form, outstanding)
    }
}
