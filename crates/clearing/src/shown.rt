//! Bytes and values as the program shows them.
ghost use Rattle.std.specs.Prelude.{◌≡◌, ◌≤◌, ◌+◌, ◌++◌, length, take, flat_map};
ghost use Rattle.clearing.specs.Printed.{in_hex, in_quotes};

use block::fields::{Field, Part};
use std::fmt;
use std::str::from_utf8;
use tags::listing::Tag;

// What is printed goes to the formatter in pieces of text: by a call of it for each byte a block in hex took six times as long.

/// Adds bytes that are printed as they stand.
fn write_text<W: fmt::Write>(f: &mut fmt::Formatter<W>, text: &[u8]) -> fmt::Result {
    f.write_str(from_utf8(text).map_err(|_| fmt::Error)?)
}

const DIGITS: &[u8; 16] = b"0123456789abcdef";

/// A byte in hex.
fn digits(byte: u8) -> [u8; 2]
    ensures { result ≡ in_hex byte }
{
    [
        DIGITS[usize::from(byte / 16)],
        DIGITS[usize::from(byte % 16)],
    ]
}

/// How many bytes in hex are one piece of text: those of a reference, and a part of those of a block.
const PIECE: usize = 16;

/// The bytes of a piece in hex. `map` over the array was tried: it takes twice as long.
fn pairs(piece: &[u8; PIECE]) -> [[u8; 2]; PIECE] {
    let mut pairs = [[0; 2]; PIECE];
    for (pair, byte) in pairs.iter_mut().zip(piece) {
        *pair = digits(*byte);
    }
    pairs
}

/// Bytes in hex.
#[derive(Clone, Copy)]
pub(crate) struct Hex<'a>(pub &'a [u8]);

impl fmt::Display for Hex<'_> {
    fn fmt<W: fmt::Write>(&self, f: &mut fmt::Formatter<W>) -> fmt::Result {
        let (pieces, rest) = self.0.as_chunks::<PIECE>();
        for piece in pieces {
            write_text(f, pairs(piece).as_flattened())?;
        }
        for byte in rest {
            write_text(f, &digits(*byte))?;
        }
        Ok(())
    }
}

/// A text as a script writes it: in quotes where it has a blank or a byte that is not printed.
#[derive(Clone, Copy)]
pub(crate) struct Quoted<'a>(pub &'a [u8]);

/// Whether a byte is printed as it stands.
fn stands(byte: u8) -> bool {
    matches!(byte, b' '..=b'~') && !matches!(byte, b'"' | b'\\')
}

/// Whether a text stands without quotes.
fn is_plain(text: &[u8]) -> bool {
    !text.is_empty() && text.iter().all(|byte| stands(*byte) && *byte != b' ')
}

/// How many bytes of a text in quotes are one piece.
const TEXT_PIECE: usize = 32;

/// The most bytes that print one of them.
const ESCAPE: usize = 4;

/// Puts a byte at a place as it is printed in quotes, and answers the place behind it.
fn put(room: &mut [u8; ESCAPE * TEXT_PIECE], at: usize, byte: u8) -> usize
    requires { at + 4 ≤ 128 }
    ensures place { result ≡ at + length (in_quotes byte) }
    ensures bytes { take result room.new ≡ take at room.old ++ in_quotes byte }
{
    match byte {
        b'"' | b'\\' => {
            room[at] = b'\\';
            room[at + 1] = byte;
            at + 2
        }
        b' '..=b'~' => {
            room[at] = byte;
            at + 1
        }
        _ => {
            let [high, low] = digits(byte);
            room[at] = b'\\';
            room[at + 1] = b'x';
            room[at + 2] = high;
            room[at + 3] = low;
            at + 4
        }
    }
}

/// Puts a piece of a text as it is printed in quotes, and answers how many bytes that took.
fn fill(room: &mut [u8; ESCAPE * TEXT_PIECE], piece: &[u8]) -> usize
    requires { length piece.now ≤ 32 }
    ensures within { result ≤ 128 }
    ensures bytes { take result room.new ≡ flat_map in_quotes piece.now }
{
    let mut used = 0;
    for byte in piece {
        used = put(room, used, *byte);
    }
    used
}

/// Adds a text as it is printed in quotes: at once where all of it stands, and else in pieces.
fn write_quoted<W: fmt::Write>(f: &mut fmt::Formatter<W>, text: &[u8]) -> fmt::Result {
    if text.iter().all(|byte| stands(*byte)) {
        return write_text(f, text);
    }
    for piece in text.chunks(TEXT_PIECE) {
        let mut room = [0; ESCAPE * TEXT_PIECE];
        let used = fill(&mut room, piece);
        write_text(f, &room[..used])?;
    }
    Ok(())
}

impl fmt::Display for Quoted<'_> {
    fn fmt<W: fmt::Write>(&self, f: &mut fmt::Formatter<W>) -> fmt::Result {
        if is_plain(self.0) {
            return write_text(f, self.0);
        }
        f.write_str("\"")?;
        write_quoted(f, self.0)?;
        f.write_str("\"")
    }
}

/// The value of a field that was read, as a script would write it.
#[derive(Clone, Copy)]
pub(crate) struct Value<'a>(pub &'a Part<'a>);

impl fmt::Display for Value<'_> {
    fn fmt<W: fmt::Write>(&self, f: &mut fmt::Formatter<W>) -> fmt::Result {
        match (self.0.tag, self.0.field) {
            (_, Field::Number(bytes)) => write!(f, "{}", number_in(bytes)),
            (Tag::Uetr, field) => write!(f, "{}", Hex(field.bytes())),
            (_, field) => write!(f, "{}", Quoted(field.bytes())),
        }
    }
}

/// The number that at most eight bytes write, the high byte first.
fn number_in(bytes: &[u8]) -> u64 {
    bytes.iter().fold(
        0,
        |total: u64, byte| total.wrapping_mul(256).wrapping_add(u64::from(*byte)),
    )
}
