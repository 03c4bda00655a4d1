// One script of calls over each screen and over stacks of layers, and what the turning layer asks of the screen below.
#![tactic(auto)]

pub mod bench;
pub mod counted;
pub mod script;
pub mod stacks;
#[cfg(test)]
mod tests;
