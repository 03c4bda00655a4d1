// A screen: rows and columns of cells, each a character with a protection mark, behind one interface.
#![tactic(auto)]

pub mod code;
pub mod interface;
pub mod refusal;
