//! Cases: a request or a recall that was opened, and how far it has come.
//!
//! `case` has the parts of a case and its name, `state` what an answer makes of it, and `numbers` the numbers under which
//! kinds and states are written. Every value in a case is fit by its type.
#![tactic(auto)]

pub mod case;
pub mod numbers;
pub mod state;
