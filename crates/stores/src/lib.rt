// Two stores of cells: a word a cell in the caller's area, and characters beside a map of protection bits.
#![tactic(auto)]

pub mod map_store;
pub(crate) mod marks;
pub(crate) mod rows;
pub mod size;
pub(crate) mod word;
pub mod word_store;
