//! The blocks of an image: finding a name, and writing a case.
ghost use Rattle.std.specs.Prelude.{◌≡◌, ◌+◌, ◌*◌, ◌≤◌, ◌++◌, length, take, drop};
ghost use Rattle.block.specs.Fields.{fields_of, value_of};
ghost use Rattle.std.specs.List.{position};
ghost use Rattle.cases.specs.Views.{name_view, view};
ghost use Rattle.tags.specs.Tags.{number_of};
ghost use Rattle.coding.specs.CaseFields.{case_block};
ghost use Rattle.image.specs.Image.{is_value, named};

use block::BLOCK;
use block::reader::value;
use cases::case::{Case, CaseName};
use coding::case_block;
use tags::listing::Tag;

/// Whether the field of a tag is there and has this value.
fn has_value(block: &[u8; BLOCK], tag: Tag, bytes: &[u8]) -> bool
    ensures { result ≡ is_value (value_of (number_of tag) (fields_of block.now)) bytes.now }
{
    value(block, tag.number()) == Some(bytes)
}

/// Whether a block has this name. The reference is looked for only where the identifier is the same.
#[tactic(auto, unfolding(crate::specs::Image::named))]
fn is_named(block: &[u8; BLOCK], name: &CaseName) -> bool
    ensures { result ≡ named (name_view name.now) block.now }
{
    has_value(block, Tag::Identifier, &name.identifier.bytes)
        && has_value(block, Tag::Uetr, &name.uetr.bytes)
}

/// The place of the first block of this name.
pub(crate) fn find_in(blocks: &[[u8; BLOCK]], name: &CaseName) -> Option<usize>
    ensures { result ≡ position (named (name_view name.now)) blocks.now }
{
    blocks.iter().position(|block| is_named(block, name))
}

/// Writes a case into the block at a place, and touches no other block.
pub(crate) fn write_at(bytes: &mut [u8], at: usize, case: &Case)
    requires { 512 * at + 512 ≤ length bytes.old }
    ensures { bytes.new ≡ take (512 * at) bytes.old ++ (case_block (view case.now) ++ drop (512 * at + 512) bytes.old) }
{
    // `as_chunks_mut` shows the block itself, but the library does not say what the bytes are afterwards.
    let start = BLOCK * at;
    bytes[start..start + BLOCK].copy_from_slice(&case_block(case));
}
