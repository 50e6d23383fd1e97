// The script's language: one bracketed form a line, in base ten.
#![tactic(auto)]

pub mod closing;
mod content;
pub mod fault;
pub mod form;
mod inner;
pub mod line;
mod make;
mod names;
pub mod number;
mod reader;
mod steps;
mod words;
