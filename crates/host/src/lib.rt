// Carries out host texts on any screen.
#![tactic(auto)]

pub mod carry;
mod draw;
pub mod effect;
pub mod examples;
pub mod state;
mod take;
