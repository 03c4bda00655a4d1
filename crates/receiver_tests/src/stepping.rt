// How a line comes into step and falls out of it.
use line::asynchronous::AsyncLine;
use line::synchronous::SyncLine;
use line::{Line, LineFault};
use std::process::Abort;

// Takes octets that give nothing.
fn silent<L: Line>(rt: &impl Abort, line: &mut L, octets: &[u8]) {
    for octet in octets {
        assert_eq!(rt; line.take(*octet), Ok(None), "an octet out of step");
    }
}

// Two SYN octets in a row bring the synchronous line into step, whatever came before.
#[test]
fn two_syn_octets(rt: HostRuntime) {
    let mut line = SyncLine::new();
    silent(&rt, &mut line, &[0x01, 0x16, 0x83, 0x16, 0x16]);
    assert_eq!(rt; line.take(0x83), Ok(Some(0x03)));
}

// SYN with the other parity is any other octet.
#[test]
fn syn_of_the_other_parity(rt: HostRuntime) {
    let mut line = SyncLine::new();
    silent(&rt, &mut line, &[0x16, 0x96, 0x16]);
    assert_eq!(rt; line.take(0x16), Ok(None));
    assert_eq!(rt; line.take(0x16), Ok(Some(0x16)));
}

// A bad octet in step asks for the full number again.
#[test]
fn bad_octet_falls_out_of_step(rt: HostRuntime) {
    let mut line = SyncLine::new();
    silent(&rt, &mut line, &[0x16, 0x16]);
    assert_eq!(rt; line.take(0x03), Err(LineFault::Parity));
    silent(&rt, &mut line, &[0x83, 0x16, 0x16]);
    assert_eq!(rt; line.take(0x83), Ok(Some(0x03)));
}

// The asynchronous line is in step from the start, and stays so after a bad octet.
#[test]
fn asynchronous_line_stays_in_step(rt: HostRuntime) {
    let mut line = AsyncLine::new();
    assert_eq!(rt; line.take(0x81), Ok(Some(0x01)));
    assert_eq!(rt; line.take(0x83), Err(LineFault::Parity));
    assert_eq!(rt; line.take(0x03), Ok(Some(0x03)));
}

// Sending takes the low seven bits.
#[test]
fn sending(rt: HostRuntime) {
    let sync = SyncLine::new();
    let even = AsyncLine::new();
    assert_eq!(rt; sync.encode(0x81), 0x01);
    assert_eq!(rt; sync.encode(0x03), 0x83);
    assert_eq!(rt; even.encode(0x01), 0x81);
    assert_eq!(rt; even.encode(0x83), 0x03);
}
