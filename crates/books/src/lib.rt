//! Case books: a list of cases in the order of their opening, and a fixed capacity.
//!
//! `book` has the interface that every form of a book meets, `refusal` why a book refuses, `iter` the cases of any book one after
//! the other, and `scan` and `totals` what can be asked of it. The forms have crates of their own.
#![tactic(auto)]

pub mod book;
pub mod iter;
pub mod refusal;
pub mod scan;
pub mod totals;
