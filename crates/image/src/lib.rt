//! The book that is an image in blocks: one case a block, then blocks of zeros.
//!
//! `blocks` finds, reads and writes blocks in an image, `mounting` judges bytes, `book` is the book, and `saving` makes the image
//! of any book. After every call the bytes are exactly the image of the cases, so that they can be kept in a file.
#![tactic(auto)]

mod blocks;
pub mod book;
mod mounting;
pub mod saving;
