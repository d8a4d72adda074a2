//! What a block may hold: the listed tags, and the faults under which blocks and fields are refused.
#![tactic(auto)]

pub mod faults;
pub mod listing;
