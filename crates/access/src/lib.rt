// A mobile set on a control channel: its calls, each answered as the rules have it.
#![tactic(auto)]

pub mod calls;
pub(crate) mod hear;
pub mod permit;
pub mod permits;
pub mod set;
