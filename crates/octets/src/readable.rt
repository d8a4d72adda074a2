//! Values that are read from bytes.
ghost use Rattle.std.specs.Prelude.{◌≡◌, ℕ, ◌/◌, ◌%◌, List, [], ◌∷◌, Option, IfSome, length, ◌==◌};
ghost use Rattle.std.specs.Option.{option_map};
ghost use Rattle.octets.specs.Bytes.{kept, read_byte, read_pair};

/// A value that is read from bytes.
pub trait Readable: Copy {
    // What contracts see of a value.
    ghost Meaning: { Type 0 };

    // What a value means.
    ghost meaning: { Self → Meaning };

    // What bytes are read as, if they are fit.
    ghost reading: { List ℕ → Option Meaning };

    // The bytes of a meaning.
    ghost writing: { Meaning → List ℕ };

    /// The value that the bytes are, if they are fit. No other bytes are the value.
    fn read(bytes: &[u8]) -> Option<Self>
        ensures value { option_map meaning result ≡ reading bytes.now }
        ensures form { IfSome result (λ value. writing (meaning value) ≡ bytes.now) };
}

impl Readable for u8 {
    ghost Meaning = { ℕ };

    ghost meaning = { λ number. number };

    ghost reading = { read_byte };

    ghost writing = { λ number. number ∷ [] };

    fn read(bytes: &[u8]) -> Option<u8> {
        match bytes {
            [number] => Some(*number),
            _ => None,
        }
    }
}

impl Readable for u16 {
    ghost Meaning = { ℕ };

    ghost meaning = { λ number. number };

    ghost reading = { read_pair };

    ghost writing = { λ number. number / 256 ∷ number % 256 ∷ [] };

    fn read(bytes: &[u8]) -> Option<u16> {
        match bytes {
            [high, low] => Some(u16::from_be_bytes([*high, *low])),
            _ => None,
        }
    }
}

impl<const N: usize> Readable for [u8; N] {
    ghost Meaning = { List ℕ };

    ghost meaning = { λ bytes. bytes };

    ghost reading = { λ bytes. kept (length bytes == N) bytes };

    ghost writing = { λ bytes. bytes };

    fn read(bytes: &[u8]) -> Option<[u8; N]> {
        <[u8; N]>::try_from(bytes).ok()
    }
}
