// A screen as text: plain rows for programs to read, a frame with a table of fields for people.
#![tactic(auto)]

pub mod cells;
pub mod fields;
pub mod frame;
mod places;
pub mod plain;
