// A terminal's rules beside its line: keys, polls and replies, and what a call answers.
#![tactic(auto)]

pub mod action;
pub mod fault;
pub mod identity;
pub mod poll;
pub mod press;
pub mod state;
