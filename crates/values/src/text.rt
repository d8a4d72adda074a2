//! Texts of printable characters, of a length that varies.
ghost use Rattle.std.specs.Prelude.{◌≡◌, ◌≤◌, ℕ, List, true, length, take};
ghost use Rattle.values.specs.Texts.{padded, printed, read_printed};

use octets::Alphabet;
use octets::readable::Readable;

/// A text of 1 to `W` printable ASCII characters. The bytes behind it are zeros, so that equal texts are equal values.
#[derive(Clone, Copy, PartialEq, Eq)]
pub struct PrintedText<const W: usize> {
    // An array with a length: there is no heap below the program, and a text can be copied.
    bytes: [u8; W],
    len: usize,
    ghost formed: { (len ≤ W) × (printed W (take len bytes) ≡ true) × (bytes ≡ padded W (take len bytes)) },
}

/// The identification that a payment keeps from end to end.
pub type EndToEnd = PrintedText<35>;

/// Additional information, which is given beside a reason.
pub type Text = PrintedText<105>;

/// The bytes and then zeros.
fn pad<const W: usize>(bytes: &[u8]) -> [u8; W]
    requires { length bytes.now ≤ W }
    ensures { result ≡ padded W bytes.now }
{
    let mut array = [0; W];
    array[..bytes.len()].copy_from_slice(bytes);
    array
}

impl<const W: usize> Readable for PrintedText<W> {
    ghost Meaning = { List ℕ };

    ghost meaning = { λ text. take text.len text.bytes };

    ghost reading = { read_printed W };

    ghost writing = { λ bytes. bytes };

    /// The text that the bytes are.
    fn read(bytes: &[u8]) -> Option<PrintedText<W>> {
        let len = bytes.len();
        if (1..=W).contains(&len) && Alphabet::Printable.admits_all(bytes) {
            Some(PrintedText {
                bytes: pad(bytes),
                len,
            })
        } else {
            None
        }
    }
}

impl<const W: usize> PrintedText<W> {
    /// The characters of the text, of which the value is made.
    pub fn bytes(&self) -> &[u8]
        ensures value { result.now ≡ take self.now.len self.now.bytes }
        ensures len { length result.now ≡ self.now.len }
        ensures rest { self.now.bytes ≡ padded W result.now }
    {
        &self.bytes[..self.len]
    }
}
