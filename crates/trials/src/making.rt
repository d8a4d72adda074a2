//! What the trials are made of: fit values, and blocks with a byte changed.
use block::check::check_of;
use block::{BLOCK, BODY};
use octets::readable::Readable;
use std::test::Fail;

/// The value that bytes are, which have to be fit.
pub(crate) fn fit<V: Readable>(bytes: &[u8]) -> Result<V, Fail> {
    V::read(bytes).ok_or_else(|| Fail::new("bytes that have to be fit are not"))
}

/// The block, closed with its right check.
pub(crate) fn closed(mut block: [u8; BLOCK]) -> [u8; BLOCK] {
    let check = check_of(&block).to_be_bytes();
    block[BODY..].copy_from_slice(&check);
    block
}

/// The block with another byte at a place before the check, which is right again.
pub(crate) fn with_byte(mut block: [u8; BLOCK], place: usize, byte: u8) -> [u8; BLOCK] {
    if place < BODY {
        block[place] = byte;
    }
    closed(block)
}

/// The block with another bit in the byte at a place; the check is left.
pub(crate) fn spoilt(mut block: [u8; BLOCK], place: usize) -> [u8; BLOCK] {
    if let Some(changed) = block.get_mut(place) {
        *changed ^= 1;
    }
    block
}
