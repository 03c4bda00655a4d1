// Replies of a station, written on any line into an area that the caller lends at each call.
#![tactic(auto)]

pub mod begun;
pub mod no_traffic;
mod octets;
