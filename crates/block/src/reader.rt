//! Reading a block: its fields one by one, whether it reads, and the value of a single tag.
ghost use Rattle.std.specs.Prelude.{◌≡◌, ◌+◌, List, [], length, Ok, Err, MatchResult};
ghost use Rattle.std.specs.Option.{option_map};
ghost use Rattle.block.specs.Fields.{FieldValue, fields_of, value_of};
ghost use Rattle.block.specs.Block.{Block};
ghost use Rattle.block.specs.Reading.{blank, layout, reading, judged, OnlyForm};
ghost use Rattle.block.specs.Reader.{bytes_of, form_of, ahead, Steps};

use crate::check::has_check;
use crate::fields::{Field, Fields, Part};
use crate::{BLOCK, BODY};
use tags::faults::BlockFault;
use tags::listing::{Form, rule_of};

impl<'a> Field<'a> {
    /// A value of this form.
    fn of(form: Form, value: &'a [u8]) -> Field<'a>
        ensures bytes { bytes_of result ≡ value.now }
        ensures form { form_of result ≡ form }
    {
        match form {
            Form::Identifier => Field::Identifier(value),
            Form::Code => Field::Code(value),
            Form::Text => Field::Text(value),
            Form::Number => Field::Number(value),
        }
    }

    /// The bytes of the value.
    pub fn bytes(self) -> &'a [u8]
        ensures { result.now ≡ bytes_of self.entry }
    {
        match self {
            Field::Identifier(value)
            | Field::Code(value)
            | Field::Text(value)
            | Field::Number(value) => value,
        }
    }
}

impl<'a> Fields<'a> {
    /// The fields of a block, which is the `number`th of its message.
    pub fn of(block: &'a [u8; BLOCK], number: u8) -> Fields<'a>
        ensures fields { ahead result ≡ layout block.now }
        ensures block { result.block ≡ number }
        ensures start { result.at ≡ 0 }
    {
        Fields {
            block: number,
            rest: &block[0..BODY],
            at: 0,
            last: 0,
        }
    }

    /// Reads the next field, nothing behind the last one, or where the layout breaks.
    pub fn read(&mut self) -> Result<Option<Part<'a>>, BlockFault>
        ensures { Steps self.old result self.new }
    {
        match self.rest {
            [tag, len, tail @ ..] if *tag != 0 => {
                let Some(rule) = rule_of(*tag) else {
                    return Err(BlockFault::BrokenLayout(self.at));
                };
                let n = *len as usize;
                if *tag <= self.last || !rule.admits(n) || tail.len() < n {
                    return Err(BlockFault::BrokenLayout(self.at));
                }
                let (value, rest) = tail.split_at(n);
                let part = Part {
                    block: self.block,
                    at: self.at,
                    tag: rule.tag,
                    field: Field::of(rule.form, value),
                };
                self.at += 2 + *len as u16;
                self.rest = rest;
                self.last = *tag;
                Ok(Some(part))
            }
            _ => {
                all_zeros(self.rest, self.at)?;
                Ok(None)
            }
        }
    }
}

/// The fields in turn, and where the layout breaks, behind which nothing comes.
impl<'a> Iterator for Fields<'a> {
    type Item = Result<Part<'a>, BlockFault>;

    ghost use Rattle.std.specs.Prelude.{length};
    ghost use Rattle.std.specs.Iterator.{at_most};
    ghost use Rattle.block.specs.Reader.{Gives};

    ghost next_gives = { Gives };

    ghost remaining = { λ f. at_most (length f.rest.now) };

    fn next(&mut self) -> Option<Self::Item> {
        match self.read() {
            Ok(part) => part.map(Ok),
            Err(fault) => {
                self.rest = &[];
                self.at = BODY as u16;
                Some(Err(fault))
            }
        }
    }
}

/// The bytes are zeros, or the layout breaks at the first that is not; the first byte stands at `at`.
fn all_zeros(bytes: &[u8], at: u16) -> Result<(), BlockFault>
    requires { at + length bytes.now ≡ 510 }
    ensures { result ≡ judged (blank at bytes.now) }
{
    match bytes.iter().position(|byte| *byte != 0) {
        Some(place) => Err(BlockFault::BrokenLayout(at + place as u16)),
        None => Ok(()),
    }
}

/// Whether a block reads: its check is judged first, then its layout. No other block reads with its fields.
pub fn judge(block: &[u8; BLOCK]) -> Result<(), BlockFault>
    ensures answer { result ≡ judged (reading block.now) }
    ensures only { OnlyForm block.now }
{
    if !has_check(block) {
        return Err(BlockFault::WrongCheck);
    }
    for field in Fields::of(block, 0) {
        field?;
    }
    Ok(())
}

/// The value of the first field with this tag, in any bytes; of a block that reads, the value of that tag. The tag is any
/// number: a `Tag` would ask more of callers.
pub fn value(bytes: &[u8], tag: u8) -> Option<&[u8]>
    ensures found { option_map (λ x. x.now) result ≡ value_of tag (fields_of bytes.now) }
    ensures read { (fs : List FieldValue) → Block bytes.now → reading bytes.now ≡ Ok fs → option_map (λ x. x.now) result ≡ value_of tag fs }
{
    let mut rest = bytes;
    while let [number, len, tail @ ..] = rest {
        if *number == 0 {
            break;
        }
        let (value, more) = tail.split_at((*len as usize).min(tail.len()));
        if *number == tag {
            return Some(value);
        }
        rest = more;
    }
    None
}
