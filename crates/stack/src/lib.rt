// Stacks of screens that are chosen while a program runs: a store, and layers over it.
#![tactic(auto)]

pub mod build;
pub mod choice;
pub mod lowest;
pub mod parse;
