// The terminal: keys, octets and replies, over any line and any screen.
#![tactic(auto)]

pub mod new;
mod obey;
pub mod pages;
pub mod readers;
pub mod receive;
pub mod run;
mod send;
mod step;
pub mod terminal;
