//! Writing a block, field by field.
ghost use Rattle.std.proofs.Props.{props};
ghost use Rattle.std.specs.Prelude.{◌≡◌, ◌+◌, ◌<◌, ◌≤◌, [], ◌∷◌, ◌++◌, length, take, drop, replicate, Ok, MatchResult};
ghost use Rattle.block.specs.Fields.{FieldValue, encoded, fields_of, last_tag};
ghost use Rattle.block.specs.Block.{block_of};
ghost use Rattle.block.specs.Reading.{reading};
ghost use Rattle.block.specs.Sound.{Sound};

use crate::check::check_of;
use crate::{BLOCK, BODY};
use tags::faults::FieldRefusal;
use tags::listing::rule_of;

/// A block that is being written. Let go before it is closed, it leaves the block all zeros.
///
/// The clauses `named` say that the writer still holds the reference that it was made with: only so does a caller know that
/// it is its own block that is closed.
pub struct BlockWriter<'a> {
    block: &'a mut [u8; BLOCK],
    /// Where the last field stands, if there is one. Its tag and its length are read from the block.
    last: usize,
    ghost sound: { Sound block.now last } by { Prim.hlevel props },
}

impl Drop for BlockWriter<'_> {
    fn drop(self)
        ensures { self.exit.0.now ≡ replicate 512 0 }
    {
        let BlockWriter {
            block: bytes,
            last: _,
        } = self;
        *bytes = [0; BLOCK];
    }
}

impl<'a> BlockWriter<'a> {
    ghost use Rattle.block.specs.Writer.{written, put_answer};

    /// A writer that has no field yet, over a block whose bytes are given up.
    pub fn new(block: &'a mut [u8; BLOCK]) -> BlockWriter<'a>
        ensures fields { written result ≡ [] }
        ensures blank { result.block.now ≡ replicate 512 0 }
        ensures named { result.block.ghost_name ≡ block.entry.ghost_name }
    {
        *block = [0; BLOCK];
        BlockWriter { block, last: 0 }
    }

    /// Puts a field behind the others, or refuses it and changes nothing. The tag is any number: a `Tag` would ask more of callers.
    pub fn put(&mut self, tag: u8, value: &[u8]) -> Result<(), FieldRefusal>
        ensures answer { result ≡ put_answer (last_tag 0 (written self.old)) tag (length value.now) }
        ensures fields { MatchResult result (λ _. written self.new ≡ written self.old ++ record { tag = tag; value = value.now } ∷ []) (λ _. self.new ≡ self.old) }
        ensures check { drop 510 self.new.block.now ≡ drop 510 self.old.block.now }
        ensures named { self.new.block.ghost_name ≡ self.old.block.ghost_name }
    {
        let Some(rule) = rule_of(tag) else {
            return Err(FieldRefusal::UnlistedTag);
        };
        if !rule.admits(value.len()) {
            return Err(FieldRefusal::UnlistedLength);
        }
        let last = self.last;
        let (last_tag, end) = last_field(self.block, last);
        if tag <= last_tag {
            return Err(FieldRefusal::NotRising);
        }
        lay(self.block, end, tag, value);
        self.last = end;
        Ok(())
    }

    /// Puts the check: the block now reads as the fields that were put.
    pub fn close(self)
        ensures bytes { self.exit.0.now ≡ block_of (written self.entry) }
        ensures reads { reading self.exit.0.now ≡ Ok (written self.entry) }
    {
        let BlockWriter { block, last: _ } = self;
        let [high, low] = check_of(block).to_be_bytes();
        block[BODY] = high;
        block[BODY + 1] = low;
    }
}

/// The tag of the last field, which stands at `last`, and where it ends, or zeros where there is none.
// Zeros and no `Option`: every tag is above 0 and the first field stands at byte 0, so nothing has to be told apart.
fn last_field(block: &[u8; BLOCK], last: usize) -> (u8, usize)
    requires { Sound block.now last }
    ensures tag { result.0 ≡ last_tag 0 (fields_of block.now) }
    ensures end { result.1 ≡ length (encoded (fields_of block.now)) }
{
    match block[last] {
        0 => (0, 0),
        tag => (tag, last + 2 + block[last + 1] as usize),
    }
}

/// Lays a field's tag, length and value over the bytes from a place on.
fn lay(block: &mut [u8; BLOCK], at: usize, tag: u8, value: &[u8])
    requires { (at + (2 + length value.now) ≤ 512) × (length value.now < 256) }
    ensures { block.new ≡ take at block.old ++ (tag ∷ length value.now ∷ value.now) ++ drop (at + (2 + length value.now)) block.old }
{
    let len = value.len();
    block[at] = tag;
    block[at + 1] = len as u8;
    block[at + 2..at + 2 + len].copy_from_slice(value);
}
