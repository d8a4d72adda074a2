//! Hex digits and decimal numbers.
ghost use Rattle.std.specs.Prelude.{◌≡◌, ◌<◌, IfSome};
ghost use Rattle.clearing.specs.Hex.{hex_digit, decimal_digit};

use crate::faults::{LineFault, ScriptError, Wanted};
use block::{BLOCK, BODY};

/// The zeros up to the check of a block.
const ZEROS: [u8; BODY] = [0; BODY];

// Two functions: each promises the definition of its own digits, so one over the radix is no plainer.

/// What a hex digit stands for.
pub(crate) fn hex_digit(byte: u8) -> Option<u32>
    ensures value { result ≡ hex_digit byte }
    ensures below { IfSome result (λ digit. digit < 16) }
{
    char::from(byte).to_digit(16)
}

/// What a decimal digit stands for.
fn decimal_digit(byte: u8) -> Option<u32>
    ensures { result ≡ decimal_digit byte }
{
    char::from(byte).to_digit(10)
}

/// The number that decimal digits write, if they write one below 2^64.
pub(crate) fn number(text: &[u8]) -> Option<u64> {
    if text.is_empty() {
        return None;
    }
    text.iter().try_fold(0, |total: u64, byte| {
        let digit = decimal_digit(*byte)?;
        total.checked_mul(10)?.checked_add(u64::from(digit))
    })
}

/// The byte that two hex digits write.
pub(crate) fn pair(digits: &[u8]) -> Option<u8> {
    let [high, low] = digits else {
        return None;
    };
    u8::try_from(hex_digit(*high)? * 16 + hex_digit(*low)?).ok()
}

/// The bytes that 32 hex digits write.
pub(crate) fn sixteen_bytes(text: &[u8]) -> Option<[u8; 16]> {
    if text.len() != 32 {
        return None;
    }
    let mut bytes = [0; 16];
    for (byte, digits) in bytes.iter_mut().zip(text.chunks_exact(2)) {
        *byte = pair(digits)?;
    }
    Some(bytes)
}

/// Adds the bytes that pairs of hex digits write. Two dots stand for zeros up to the check of the block that they stand
/// in, and a lone dash for no bytes.
pub(crate) fn push_bytes(bytes: &mut Vec<u8>, text: &[u8]) -> Result<(), ScriptError> {
    if let b"-" = text {
        return Ok(());
    }
    for digits in text.chunks(2) {
        if let b".." = digits {
            let used = bytes.len() % BLOCK;
            bytes.extend_from_slice(ZEROS.get(used..).ok_or(LineFault::NotABlockEnd)?)?;
        } else {
            bytes.push(pair(digits).ok_or(Wanted::HexPairs)?)?;
        }
    }
    Ok(())
}
