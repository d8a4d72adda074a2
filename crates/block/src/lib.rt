//! The block: 512 bytes that hold fields in the order of their tags, then zeros, and a check over both.
//!
//! `check` sums a block up, `reader` takes a block apart and judges it, and `writer` makes one. Which fields a block may hold
//! is listed in the crate `tags`.
#![tactic(auto)]

pub mod check;
pub mod fields;
pub mod reader;
pub mod writer;

/// The bytes of a block.
pub const BLOCK: usize = 512;

/// The bytes of a block before its check.
pub const BODY: usize = 510;
