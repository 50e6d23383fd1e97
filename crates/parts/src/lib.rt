// The parts that a set is made with. Each is a trait that says what an implementation means, and by which laws.
#![tactic(auto)]

mod answers;
pub mod choice;
pub mod emergency;
pub mod few_numbers;
pub mod list_plan;
pub mod list_source;
pub mod number_list;
pub mod plan;
pub mod register_source;
pub mod registration;
pub mod service;
pub mod simple_call;
pub mod source;
pub mod uses;
pub mod verdict;
