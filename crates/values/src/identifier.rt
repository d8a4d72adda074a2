//! The identifiers of messages and payments.
ghost use Rattle.std.specs.Prelude.{◌≡◌, ℕ, List, true, Some, Decides};
ghost use Rattle.dates.specs.Dates.{read_date};
ghost use Rattle.values.specs.Identifiers.{date_part, identifier, read_identifier, begins_with, is_dated, suits};
ghost use Rattle.dates.specs.Views.{view};

use crate::member_code::MemberCode;
use dates::date::Date;
use octets::readable::Readable;
use octets::{Alphabet, same_bytes};

/// How many bytes an identifier has.
const LENGTH: usize = 20;

/// Where the date begins, behind the member's code.
const DATE: usize = 6;

/// Where the last six characters begin, behind the date.
const SERIAL: usize = 14;

/// An identifier: a member's code, a date, and six characters, each a capital letter or a digit.
#[derive(Clone, Copy, PartialEq, Eq)]
pub struct Identifier {
    pub bytes: [u8; LENGTH],
    ghost formed: { identifier bytes ≡ true },
}

/// Whether the bytes are an identifier.
fn is_formed(bytes: &[u8; LENGTH]) -> bool
    ensures { result ≡ identifier bytes.now }
{
    let code = MemberCode::read(&bytes[..DATE]).is_some();
    let date = Date::read(&bytes[DATE..SERIAL]).is_some();
    let serial = Alphabet::CapitalsAndDigits.admits_all(&bytes[SERIAL..]);
    code && date && serial
}

impl Readable for Identifier {
    ghost Meaning = { List ℕ };

    ghost meaning = { λ id. id.bytes };

    ghost reading = { read_identifier };

    ghost writing = { λ bytes. bytes };

    /// The identifier that the bytes are.
    fn read(bytes: &[u8]) -> Option<Identifier> {
        let bytes = <[u8; LENGTH]>::try_from(bytes).ok()?;
        if is_formed(&bytes) {
            Some(Identifier { bytes })
        } else {
            None
        }
    }
}

impl Identifier {
    /// Whether it begins with the member's code, and so suits a sender with that code.
    pub fn begins_with(&self, code: &MemberCode) -> bool
        ensures value { result ≡ begins_with self.now.bytes code.now.bytes }
        ensures suits { result ≡ suits self.now.bytes code.now.bytes }
    {
        same_bytes(&self.bytes[..DATE], &code.bytes)
    }

    /// Whether it has this date behind the member's code.
    pub fn dated(&self, date: &Date) -> bool
        ensures value { result ≡ is_dated self.now.bytes (view date.now) }
        ensures reads { Decides result (read_date (date_part self.now.bytes) ≡ Some (view date.now)) }
    {
        same_bytes(&self.bytes[DATE..SERIAL], &date.digits())
    }
}
