// A screen over any screen that keeps an order of rows, and moves no cell to remove or insert one.
#![tactic(auto)]

pub(crate) mod below;
pub mod order;
pub mod turning;
