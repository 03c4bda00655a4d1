// The receiver at its edges.
use line::LineFault;
use numbered::Numbered;
use receiver::check::block_check;
use receiver::fault::{Cause, Fault, ReceiverFault};
use receiver::message::Receiver;
use receiver::receive::Event;
use std::process::Abort;

// Receives characters that finish nothing.
fn collect(rt: &impl Abort, receiver: &mut Receiver, characters: &[u8]) {
    for character in characters {
        assert_eq!(rt; receiver.receive(*character), Ok(Event::Nothing));
    }
}

// A receiver that has kept so many characters 41.
fn filled(rt: &impl Abort, count: usize) -> Receiver {
    let mut receiver = Receiver::new();
    assert_eq!(rt; receiver.receive(0x01), Ok(Event::Begun));
    for _ in 0..count {
        assert_eq!(rt; receiver.receive(0x41), Ok(Event::Nothing));
    }
    receiver
}

fn too_long() -> Result<Event, Fault> {
    Err(Fault {
        cause: Cause::Receiver(ReceiverFault::TooLong),
        kept: 6000,
    })
}

// Exactly 6,000 kept characters are a message.
#[test]
fn longest_message(rt: HostRuntime) {
    let mut receiver = filled(&rt, 5999);
    collect(&rt, &mut receiver, &[0x03]);
    assert_eq!(rt; receiver.receive(0x42), Ok(Event::Message(6000)));
    assert_eq!(rt; receiver.message().len(), 6000);
}

// The 6,001st is refused, be it a character or ETX, and the message is dropped.
#[test]
fn one_more(rt: HostRuntime) {
    let mut receiver = filled(&rt, 6000);
    assert_eq!(rt; receiver.receive(0x41), too_long());
    assert_eq!(rt; receiver.count(), 0);
    let mut other = filled(&rt, 6000);
    assert_eq!(rt; other.receive(0x03), too_long());
}

// Fill and SOH are not kept, so they are never too many.
#[test]
fn fill_is_never_too_much(rt: HostRuntime) {
    let mut receiver = filled(&rt, 6000);
    collect(&rt, &mut receiver, &[0x00, 0x16, 0x00]);
    assert_eq!(rt; receiver.count(), 6000);
    assert_eq!(rt; receiver.receive(0x01), Ok(Event::Begun));
    assert_eq!(rt; receiver.count(), 0);
}

// After ETX whatever comes is the check: SYN, SOH and NUL too.
#[test]
fn any_character_is_the_check(rt: HostRuntime) {
    let mut receiver = Receiver::new();
    assert_eq!(rt; receiver.receive(0x01), Ok(Event::Begun));
    collect(&rt, &mut receiver, &[0x31, 0x54, 0x70, 0x03]);
    assert_eq!(rt; receiver.receive(0x16), Ok(Event::Message(4)));
    assert_eq!(rt; receiver.receive(0x01), Ok(Event::Begun));
    collect(&rt, &mut receiver, &[0x31, 0x62, 0x70, 0x10, 0x31, 0x03]);
    assert_eq!(rt; receiver.receive(0x01), Ok(Event::Message(6)));
    assert_eq!(rt; receiver.receive(0x01), Ok(Event::Begun));
    collect(&rt, &mut receiver, &[0x43, 0x40, 0x03]);
    assert_eq!(rt; receiver.receive(0x00), Ok(Event::Message(3)));
}

// The message is read until the next character.
#[test]
fn message_is_read(rt: HostRuntime) {
    let mut receiver = Receiver::new();
    assert_eq!(rt; receiver.receive(0x01), Ok(Event::Begun));
    collect(&rt, &mut receiver, &[0x35, 0x68, 0x70, 0x02, 0x41, 0x03]);
    assert_eq!(rt; receiver.message().len(), 0);
    assert_eq!(rt; receiver.receive(0x6d), Ok(Event::Message(6)));
    assert_eq!(rt; block_check(receiver.message()), 0x6d);
    assert_eq!(rt; receiver.count(), 0);
    collect(&rt, &mut receiver, &[0x41]);
    assert_eq!(rt; receiver.message().len(), 0);
}

// A refusal's number.
#[test]
fn numbers(rt: HostRuntime) {
    assert_eq!(rt; Cause::Line(LineFault::Parity).number(), 7);
    assert_eq!(rt; Cause::Receiver(ReceiverFault::TooLong).number(), 8);
    assert_eq!(rt; Cause::Receiver(ReceiverFault::BlockCheck).number(), 9);
}
