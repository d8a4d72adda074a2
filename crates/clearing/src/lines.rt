//! The lines of a script, one after the other.
ghost use Rattle.std.specs.Prelude.{◌≡◌, ◌<◌, ◌≤◌, length, IsSome, IsNone};
ghost use Rattle.std.specs.Iterator.{at_most};

/// The lines that are left, the number of the last one taken, and how many made no sense.
#[derive(Drop)]
pub(crate) struct Lines<'a> {
    rest: &'a [u8],
    pub number: u64,
    pub faults: u64,
}

/// Where the first line ends.
fn line_end(bytes: &[u8]) -> usize
    ensures { result ≤ length bytes.now }
{
    bytes
        .iter()
        .position(|byte| *byte == b'\n')
        .unwrap_or(bytes.len())
}

impl<'a> Lines<'a> {
    /// All lines of a script.
    pub(crate) fn of(script: &'a [u8]) -> Lines<'a> {
        Lines {
            rest: script,
            number: 0,
            faults: 0,
        }
    }

    /// Counts a line that makes no sense.
    pub(crate) fn count_fault(&mut self)
        ensures { self.new.rest.now ≡ self.old.rest.now }
    {
        self.faults = self.faults.saturating_add(1);
    }
}

/// The lines that are left, without their ends. Each line taken leaves fewer bytes.
impl<'a> Iterator for Lines<'a> {
    type Item = &'a [u8];

    ghost next_gives = { λ s r t. (IsSome r → length t.rest.now < length s.rest.now) × (IsNone r → t.rest.now ≡ s.rest.now) };

    ghost remaining = { λ s. at_most (length s.rest.now) };

    fn next(&mut self) -> Option<&'a [u8]> {
        if self.rest.is_empty() {
            return None;
        }
        self.number = self.number.saturating_add(1);
        let (line, more) = self.rest.split_at(line_end(self.rest));
        self.rest = match more {
            [_, rest @ ..] => rest,
            [] => more,
        };
        Some(line)
    }
}
