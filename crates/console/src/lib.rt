// A terminal's rules beside its screen: keys, polls and replies, and what a call answers.
#![tactic(auto)]

pub mod answer;
pub mod fault;
pub mod identity;
pub mod key;
pub mod outstanding;
