//! Bytes: comparing them, judging them by the characters that they stand for, and reading values from them.
#![tactic(auto)]

pub mod readable;

ghost use Rattle.std.specs.Prelude.{◌≡◌, ◌&&◌, length, Decides, ◌==◌};
ghost use Rattle.octets.specs.Bytes.{same_bytes, every, kept};
ghost use Rattle.octets.specs.Alphabet.{admitted};

/// Whether two byte strings are equal.
pub fn same_bytes(a: &[u8], b: &[u8]) -> bool
    ensures value { result ≡ same_bytes a.now b.now }
    ensures equal { Decides result (a.now ≡ b.now) }
{
    a == b
}

/// A set of characters.
#[derive(Clone, Copy)]
pub enum Alphabet {
    Digits,
    CapitalsAndDigits,
    Printable,
}

impl Alphabet {
    /// Whether the byte stands for a character of the set.
    pub fn admits(self, byte: u8) -> bool
        ensures { result ≡ admitted self byte }
    {
        match (self, byte as char) {
            (Alphabet::Digits, '0'..='9') => true,
            (Alphabet::CapitalsAndDigits, 'A'..='Z' | '0'..='9') => true,
            (Alphabet::Printable, ' '..='~') => true,
            _ => false,
        }
    }

    /// Whether each of the bytes stands for a character of the set.
    pub fn admits_all(self, bytes: &[u8]) -> bool
        ensures { result ≡ every (admitted self) bytes.now }
    {
        bytes.iter().all(|byte| self.admits(*byte))
    }
}

/// The bytes as an array, if they are as many as it holds and stand for characters of the set.
pub fn read_exactly<const N: usize>(alphabet: Alphabet, bytes: &[u8]) -> Option<[u8; N]>
    ensures { result ≡ kept (length bytes.now == N && every (admitted alphabet) bytes.now) bytes.now }
{
    let array = <[u8; N]>::try_from(bytes).ok()?;
    alphabet.admits_all(bytes).then_some(array)
}
