// The kept page: a screen's cells and cursor place as octets, to be kept and read again.
#![tactic(auto)]

mod cell;
mod number;
pub mod read;
pub mod reader;
pub mod refusal;
pub mod write;
