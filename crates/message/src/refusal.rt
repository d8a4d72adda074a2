//! Why a message is refused, and where.
ghost use Rattle.std.specs.Prelude.{◌≡◌, Some};
ghost use Rattle.message.specs.Refusals.{layer_text, refusal_number, refusal_layer, refusal_block, refusal_place, refusal_text};

use block::BODY;
use std::fmt;

/// Which layer of checks a refusal belongs to.
#[derive(Clone, Copy, Debug, PartialEq, Eq)]
pub enum Layer {
    /// Whole blocks, with their checks and their layouts.
    Blocks,
    /// The tags and the values of fields.
    Fields,
}

impl fmt::Display for Layer {
    ghost output = { λ layer. Some (layer_text layer) };

    fn fmt<W: fmt::Write>(&self, f: &mut fmt::Formatter<W>) -> fmt::Result {
        f.write_str(match self {
            Layer::Blocks => "blocks",
            Layer::Fields => "fields",
        })
    }
}

/// Why bytes are refused, by the check that refuses them, and where the fault stands.
// A tag is given by its number, as reading is defined and as a refusal is printed: a `Tag` would be turned into it by each user.
#[derive(Clone, Copy, Debug, PartialEq, Eq)]
pub enum Refusal {
    /// The bytes are not 1 to 17 whole blocks.
    NotWhole,
    /// The last two bytes of the block are not its check.
    WrongCheck { block: u8 },
    /// At this byte of the block stands no field that may stand there, or a byte that should be zero.
    BrokenLayout { block: u8, place: u16 },
    /// This tag is missing in the block or out of place. Tag 1 of the header is so where it gives no known kind.
    MisplacedTag { block: u8, tag: u8 },
    /// The value of this tag of the block is not of its form.
    UnfitValue { block: u8, tag: u8 },
}

impl Refusal {
    /// The number of the check.
    pub fn number(self) -> u8
        ensures { result ≡ refusal_number self }
    {
        match self {
            Refusal::NotWhole => 1,
            Refusal::WrongCheck { .. } => 2,
            Refusal::BrokenLayout { .. } => 3,
            Refusal::MisplacedTag { .. } => 4,
            Refusal::UnfitValue { .. } => 5,
        }
    }

    /// The layer of the check.
    pub fn layer(self) -> Layer
        ensures { result ≡ refusal_layer self }
    {
        match self {
            Refusal::NotWhole | Refusal::WrongCheck { .. } | Refusal::BrokenLayout { .. } =>
                Layer::Blocks,
            Refusal::MisplacedTag { .. } | Refusal::UnfitValue { .. } => Layer::Fields,
        }
    }

    /// The block in which the fault stands, or 0 where the bytes are not whole blocks.
    pub fn block(self) -> u8
        ensures { result ≡ refusal_block self }
    {
        match self {
            Refusal::NotWhole => 0,
            Refusal::WrongCheck { block }
            | Refusal::BrokenLayout { block, .. }
            | Refusal::MisplacedTag { block, .. }
            | Refusal::UnfitValue { block, .. } => block,
        }
    }

    /// The byte of the block or the tag at which the fault stands, or 0 where the bytes are not whole blocks.
    pub fn place(self) -> u16
        ensures { result ≡ refusal_place self }
    {
        match self {
            Refusal::NotWhole => 0,
            Refusal::WrongCheck { .. } => BODY as u16,
            Refusal::BrokenLayout { place, .. } => place,
            Refusal::MisplacedTag { tag, .. } | Refusal::UnfitValue { tag, .. } => u16::from(tag),
        }
    }
}

/// The number of the check, its layer, and the block and the place of the fault.
impl fmt::Display for Refusal {
    ghost output = { λ refusal. Some (refusal_text refusal) };

    fn fmt<W: fmt::Write>(&self, f: &mut fmt::Formatter<W>) -> fmt::Result {
        let (number, layer) = (self.number(), self.layer());
        let (block, place) = (self.block(), self.place());
        write!(f, "{number} {layer} {block} {place}")
    }
}
