//! What a read message says, in typed values: its header and its transactions.
//!
//! `header` and `transaction` have the types of the parts, and `decode` reads them all.
#![tactic(auto)]

pub mod decode;
pub mod header;
pub mod transaction;
