// A whole script, played line by line to a set on a bench.
#![tactic(auto)]

pub mod calls;
pub mod manned;
pub mod play;
pub mod turns;
