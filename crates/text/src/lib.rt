// A host text, read step by step.
#![tactic(auto)]

pub mod examples;
pub mod reader;
pub mod step;
