// Pages tried on screens of every size: random cells there and back, and pages damaged at every place.
#![tactic(auto)]

pub mod damage;
pub mod random;
#[cfg(test)]
mod tests;
pub mod trips;
