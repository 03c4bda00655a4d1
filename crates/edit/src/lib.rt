// What steps of a host text and keys do to the cells of a screen and its cursor.
#![tactic(auto)]

pub mod apply;
pub mod cell;
pub mod edits;
pub mod laws;
mod moves;
mod parts;
pub mod store;
pub mod view;
mod write;
