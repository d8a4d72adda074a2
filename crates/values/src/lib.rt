//! The values that messages carry, each a type of its own that cannot hold an unfit value.
//!
//! A value is read from bytes, where `None` says that they are unfit, and gives its bytes back. Each module has one kind of
//! value; dates have a crate of their own.
#![tactic(auto)]

pub mod amount;
pub mod identifier;
pub mod kind;
pub mod member_code;
pub mod reason_code;
pub mod status_code;
pub mod text;
pub mod uetr;
