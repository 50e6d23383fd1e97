// Playing worked scripts, and comparing what they print with the lines that were worked out by hand.
#![tactic(auto)]

pub mod agreement;
pub mod listed;
