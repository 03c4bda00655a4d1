// A screen that shows the upper left part of any screen, and touches nothing outside it.
#![tactic(auto)]

pub(crate) mod below;
pub mod extent;
pub mod window;
