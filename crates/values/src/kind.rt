//! The kinds of messages.
ghost use Rattle.std.specs.Prelude.{◌≡◌};
ghost use Rattle.std.specs.Result.{result_ok};
ghost use Rattle.values.specs.Kinds.{kind_of, kind_number};

/// What a message is, by its number.
#[derive(Clone, Copy, Debug, PartialEq, Eq)]
pub enum Kind {
    /// A request to pay (pain.013).
    Request = 13,
    /// A report on a request (pain.014).
    Report = 14,
    /// A reply to a recall (camt.029).
    Reply = 29,
    /// A recall of a payment or of a request (camt.056).
    Recall = 56,
}

/// A number that no kind of message has.
#[derive(Clone, Copy, Debug, PartialEq, Eq)]
pub struct UnknownKind;

impl TryFrom<u8> for Kind {
    type Error = UnknownKind;

    ghost try_from_gives = { λ number r. result_ok r ≡ kind_of number };

    fn try_from(number: u8) -> Result<Kind, UnknownKind> {
        match number {
            13 => Ok(Kind::Request),
            14 => Ok(Kind::Report),
            29 => Ok(Kind::Reply),
            56 => Ok(Kind::Recall),
            _ => Err(UnknownKind),
        }
    }
}

impl Kind {
    /// Its number.
    pub fn number(self) -> u8
        ensures { result ≡ kind_number self }
    {
        self as u8
    }
}
