// A capture of a line's octets: what was on the line, and where. It knows only what line and receiver promise.
#![tactic(auto)]

pub mod content;
pub mod watch;
