//! Messages: the fields that their blocks have, and reading.
#![tactic(auto)]

mod findings;
mod fitness;
pub mod read;
pub mod refusal;
mod scan;
mod shapes;
