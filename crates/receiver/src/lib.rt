// The receiver: it collects the characters of a message and tests the block check.
#![tactic(auto)]

pub mod check;
pub mod fault;
pub mod hear;
pub mod message;
pub mod receive;
