//! The code of a status.
ghost use Rattle.std.specs.Prelude.{◌≡◌, ℕ, List, true};
ghost use Rattle.values.specs.Codes.{status, read_status};

use octets::readable::Readable;
use octets::{Alphabet, read_exactly};

/// The status of a transaction: four characters, each a capital letter or a digit.
// A type of its own, so that no status is taken for a reason; what the codes share is `read_exactly`.
#[derive(Clone, Copy, PartialEq, Eq)]
pub struct StatusCode {
    pub bytes: [u8; 4],
    ghost formed: { status bytes ≡ true },
}

impl Readable for StatusCode {
    ghost Meaning = { List ℕ };

    ghost meaning = { λ code. code.bytes };

    ghost reading = { read_status };

    ghost writing = { λ bytes. bytes };

    /// The status that the bytes are.
    fn read(bytes: &[u8]) -> Option<StatusCode> {
        let bytes = read_exactly(Alphabet::CapitalsAndDigits, bytes)?;
        Some(StatusCode { bytes })
    }
}
