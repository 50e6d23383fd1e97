// How a heard slot starts, keeps and ends a stay on a control channel, and what is noted in it.
#![tactic(auto)]

pub mod follow;
mod frames;
