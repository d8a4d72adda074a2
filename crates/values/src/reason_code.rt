//! The code of a reason.
ghost use Rattle.std.specs.Prelude.{◌≡◌, ℕ, List, true};
ghost use Rattle.values.specs.Codes.{reason, read_reason};

use octets::readable::Readable;
use octets::{Alphabet, read_exactly};

/// The reason of a transaction: four characters, each a capital letter or a digit.
// A type of its own, so that no reason is taken for a status. One code over a type parameter for its form was tried: beside a
// type parameter and a ghost field `Clone` can't be derived. So what the codes share is `read_exactly`.
#[derive(Clone, Copy, PartialEq, Eq)]
pub struct ReasonCode {
    pub bytes: [u8; 4],
    ghost formed: { reason bytes ≡ true },
}

impl Readable for ReasonCode {
    ghost Meaning = { List ℕ };

    ghost meaning = { λ code. code.bytes };

    ghost reading = { read_reason };

    ghost writing = { λ bytes. bytes };

    /// The reason that the bytes are.
    fn read(bytes: &[u8]) -> Option<ReasonCode> {
        let bytes = read_exactly(Alphabet::CapitalsAndDigits, bytes)?;
        Some(ReasonCode { bytes })
    }
}
