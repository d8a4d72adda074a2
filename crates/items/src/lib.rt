//! One value of a block: what the field of a tag holds, for every type of value.
#![tactic(auto)]

ghost use Rattle.std.specs.Prelude.{◌≡◌};
ghost use Rattle.std.specs.Option.{option_map};
ghost use Rattle.tags.specs.Tags.{number_of};
ghost use Rattle.block.specs.Fields.{fields_of};
ghost use Rattle.items.specs.Items.{item_in, optional_item_in};

use block::reader::value;
use octets::readable::Readable;
use tags::listing::Tag;

/// The value under a tag. `None` says that there is no such field or that its value is unfit.
pub fn item<V: Readable>(block: &[u8], tag: Tag) -> Option<V>
    ensures { option_map V.meaning result ≡ item_in V.reading (number_of tag) (fields_of block.now) }
{
    V::read(value(block, tag.number())?)
}

/// The value under a tag that may be absent. `None` says that its value is unfit.
pub fn optional_item<V: Readable>(block: &[u8], tag: Tag) -> Option<Option<V>>
    ensures { option_map (option_map V.meaning) result ≡ optional_item_in V.reading (number_of tag) (fields_of block.now) }
{
    // `map_or` over a closure that reads was tried, and the check found no proof of it.
    match value(block, tag.number()) {
        Some(bytes) => {
            let value = V::read(bytes)?;
            Some(Some(value))
        }
        None => Some(None),
    }
}
