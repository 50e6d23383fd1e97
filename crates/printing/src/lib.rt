// What is printed: one answer a line.
#![tactic(auto)]

pub mod answer;
pub mod append;
pub mod display;
