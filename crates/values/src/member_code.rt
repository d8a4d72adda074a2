//! The code of a member.
ghost use Rattle.std.specs.Prelude.{◌≡◌, ℕ, List, true};
ghost use Rattle.values.specs.Codes.{member_code, read_member_code};

use octets::readable::Readable;
use octets::{Alphabet, read_exactly};

/// The code of a member: six ASCII digits.
// A type of its own, as a status and a reason are: what the codes share is `read_exactly`.
#[derive(Clone, Copy, PartialEq, Eq)]
pub struct MemberCode {
    pub bytes: [u8; 6],
    ghost formed: { member_code bytes ≡ true },
}

impl Readable for MemberCode {
    ghost Meaning = { List ℕ };

    ghost meaning = { λ code. code.bytes };

    ghost reading = { read_member_code };

    ghost writing = { λ bytes. bytes };

    /// The code that the bytes are.
    fn read(bytes: &[u8]) -> Option<MemberCode> {
        let bytes = read_exactly(Alphabet::Digits, bytes)?;
        Some(MemberCode { bytes })
    }
}
