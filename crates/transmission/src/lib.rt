// Taking up a transmission: the text that the cells up to the cursor make.
#![tactic(auto)]

pub mod held;
pub mod kind;
pub mod laws;
mod spell;
pub mod take;
