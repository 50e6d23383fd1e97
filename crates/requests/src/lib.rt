// What a heard slot does to a request: answers, limits, the choice of a return slot and its permit.
#![tactic(auto)]

pub mod choose;
mod cover;
pub mod jobs;
pub mod through;
