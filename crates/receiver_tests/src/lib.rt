// Tests of the lines and of the receiver at their edges.
#![tactic(auto)]

#[cfg(test)]
mod receiving;
#[cfg(test)]
mod stepping;
