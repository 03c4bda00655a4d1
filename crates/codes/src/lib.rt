// The codes of the terminal: seven-bit ASCII, the control codes by their standard names.
#![tactic(auto)]

pub mod class;

pub const NUL: u8 = 0x00;

pub const SOH: u8 = 0x01;

pub const STX: u8 = 0x02;

pub const ETX: u8 = 0x03;

pub const EOT: u8 = 0x04;

pub const ENQ: u8 = 0x05;

pub const ACK: u8 = 0x06;

pub const BEL: u8 = 0x07;

pub const BS: u8 = 0x08;

pub const HT: u8 = 0x09;

pub const LF: u8 = 0x0a;

pub const VT: u8 = 0x0b;

pub const FF: u8 = 0x0c;

pub const CR: u8 = 0x0d;

pub const SO: u8 = 0x0e;

pub const SI: u8 = 0x0f;

pub const DLE: u8 = 0x10;

pub const DC1: u8 = 0x11;

pub const DC2: u8 = 0x12;

pub const DC3: u8 = 0x13;

pub const DC4: u8 = 0x14;

pub const NAK: u8 = 0x15;

pub const SYN: u8 = 0x16;

pub const ETB: u8 = 0x17;

pub const CAN: u8 = 0x18;

pub const EM: u8 = 0x19;

pub const SUB: u8 = 0x1a;

pub const ESC: u8 = 0x1b;

pub const FS: u8 = 0x1c;

pub const GS: u8 = 0x1d;

pub const RS: u8 = 0x1e;

pub const US: u8 = 0x1f;

pub const SPACE: u8 = 0x20;

pub const DEL: u8 = 0x7f;
