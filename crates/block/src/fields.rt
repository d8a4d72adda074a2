//! The parts of a block that is read.
ghost use Rattle.std.specs.Prelude.{◌≡◌, ◌+◌, length};

use tags::listing::Tag;

/// The value of a field: the bytes of an identifier, a code, a text or a number, where they lie in the message.
#[derive(Clone, Copy, Debug, PartialEq, Eq)]
pub enum Field<'a> {
    Identifier(&'a [u8]),
    Code(&'a [u8]),
    Text(&'a [u8]),
    Number(&'a [u8]),
}

/// A field that was read: a part of the message, known by its block and by the byte of its tag.
#[derive(Clone, Copy, Debug, PartialEq, Eq)]
pub struct Part<'a> {
    pub block: u8,
    pub at: u16,
    pub tag: Tag,
    pub field: Field<'a>,
}

/// A block that is being read: what is left of its 510 bytes, and the last tag read.
#[derive(Drop)]
pub struct Fields<'a> {
    pub(crate) block: u8,
    pub(crate) rest: &'a [u8],
    pub(crate) at: u16,
    pub(crate) last: u8,
    ghost whole: { at + length rest.now ≡ 510 },
}
