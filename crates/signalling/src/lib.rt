// What a heard slot of an MPT 1327 control channel says. Nothing of a set or of a base station stands here.
#![tactic(auto)]

pub mod content;
pub mod division;
pub mod facts;
pub mod frame_length;
pub mod frames;
pub mod range;
pub mod reading;
pub mod refusal;
pub mod tables;
