//! The reference that a transaction keeps from end to end.
ghost use Rattle.std.specs.Prelude.{◌≡◌, ℕ, List, true};
ghost use Rattle.values.specs.Codes.{uetr, read_uetr};

use octets::readable::Readable;
use octets::same_bytes;

/// How many bytes a reference has.
const LENGTH: usize = 16;

/// The bytes that stand for no transaction.
const NIL: [u8; LENGTH] = [0; LENGTH];

/// A unique end-to-end transaction reference: 16 bytes, not all zero.
#[derive(Clone, Copy, PartialEq, Eq)]
pub struct Uetr {
    pub bytes: [u8; LENGTH],
    ghost formed: { uetr bytes ≡ true },
}

impl Readable for Uetr {
    ghost Meaning = { List ℕ };

    ghost meaning = { λ reference. reference.bytes };

    ghost reading = { read_uetr };

    ghost writing = { λ bytes. bytes };

    /// The reference that the bytes are.
    fn read(bytes: &[u8]) -> Option<Uetr> {
        let bytes = <[u8; LENGTH]>::try_from(bytes).ok()?;
        if same_bytes(&bytes, &NIL) {
            None
        } else {
            Some(Uetr { bytes })
        }
    }
}
