// The rules of a set on a control channel: what it keeps, what each call makes of it, and the laws of whole runs.
#![tactic(auto)]

pub mod card;
pub mod request;
pub mod station;
