// Scripts: lines of words, with codes and octets as two hexadecimal digits.
#![tactic(auto)]

pub mod error;
pub mod hex;
mod input;
pub mod number;
#[cfg(test)]
mod tests;
pub mod word;
pub mod words;
