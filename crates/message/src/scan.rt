//! One pass over the fields of a block.
ghost use Rattle.std.specs.Prelude.{◌≡◌, ℕ, List, [], ◌∷◌, if◌then◌else◌, Some, None, Ok, MatchResult};
ghost use Rattle.std.specs.Option.{option_or};
ghost use Rattle.tags.specs.Tags.{number_of};
ghost use Rattle.block.specs.Fields.{FieldValue};
ghost use Rattle.block.specs.Reading.{Reading, led, layout};
ghost use Rattle.message.specs.Fitness.{fits};
ghost use Rattle.message.specs.Shapes.{tag_fault};
ghost use Rattle.message.specs.Scanning.{reported, report};

use crate::fitness::is_fit;
use crate::shapes::Slot;
use block::BLOCK;
use block::fields::Fields;
use std::cmp::Ordering;
use tags::faults::BlockFault;
use tags::listing::Tag;

/// What is found in a block whose layout holds: the lowest tag that is missing or out of place, and the lowest whose
/// value is unfit.
// Tags by their numbers, as refusals have them.
#[derive(Clone, Copy, Debug, Default, PartialEq, Eq)]
pub(crate) struct Found {
    pub tags: Option<u8>,
    pub values: Option<u8>,
}

/// The slots behind the one that a tag takes, or the lowest tag that is missing or out of place.
fn take_slot(slots: &[Slot], tag: u8) -> Result<&[Slot], u8>
    ensures { MatchResult result (λ left. (v : List ℕ) (fs : List FieldValue) → tag_fault slots.now (record { tag = tag; value = v } ∷ fs) ≡ tag_fault left.now fs) (λ lowest. (v : List ℕ) (fs : List FieldValue) → tag_fault slots.now (record { tag = tag; value = v } ∷ fs) ≡ Some lowest) }
{
    let mut rest = slots;
    while let [slot, more @ ..] = rest {
        match (tag.cmp(&slot.tag().number()), slot) {
            (Ordering::Equal, _) => return Ok(more),
            (Ordering::Less, _) => return Err(tag),
            (Ordering::Greater, Slot::Required(missing)) => return Err(missing.number()),
            (Ordering::Greater, Slot::Optional(_)) => rest = more,
        }
    }
    Err(tag)
}

/// The lowest tag that has to stand in these slots.
fn lowest_required(slots: &[Slot]) -> Option<u8>
    ensures { result ≡ tag_fault slots.now [] }
{
    slots
        .iter()
        .find(|slot| slot.is_required())
        .map(|slot| slot.tag().number())
}

/// A pass over a block: the slots that are left, and what was found so far.
#[derive(Clone, Copy)]
struct Pass<'a> {
    slots: &'a [Slot],
    found: Found,
}

impl Pass<'_> {
    /// Goes past a tag.
    fn take(&mut self, tag: u8)
        ensures tags { (v : List ℕ) (fs : List FieldValue) → option_or self.old.found.tags (tag_fault self.old.slots.now (record { tag = tag; value = v } ∷ fs)) ≡ option_or self.new.found.tags (tag_fault self.new.slots.now fs) }
        ensures values { self.new.found.values ≡ self.old.found.values }
    {
        if self.found.tags.is_none() {
            match take_slot(self.slots, tag) {
                Ok(left) => self.slots = left,
                Err(lowest) => self.found.tags = Some(lowest),
            }
        }
    }

    /// Goes past a field.
    #[tactic(auto, using(crate::proofs::Passing::reported_past))]
    fn go_past(&mut self, tag: Tag, value: &[u8])
        ensures { (v : Reading) → reported self.old.found self.old.slots.now (led (record { tag = number_of tag; value = value.now }) v) ≡ reported self.new.found self.new.slots.now v }
    {
        self.take(tag.number());
        self.found.values = self.found.values.or(unfit(tag, value));
    }

    /// What the pass found, behind the last field.
    fn finish(self) -> Found
        ensures { Ok result ≡ reported self.entry.found self.entry.slots.now (Ok []) }
    {
        Found {
            tags: self.found.tags.or(lowest_required(self.slots)),
            ..self.found
        }
    }
}

/// The tag, if the value is unfit for it.
fn unfit(tag: Tag, value: &[u8]) -> Option<u8>
    ensures { result ≡ (if fits tag value.now then None else Some (number_of tag)) }
{
    (!is_fit(tag, value)).then(|| tag.number())
}

/// Passes once over the fields of a block, beside the slots that they have.
pub(crate) fn scan(block: &[u8; BLOCK], slots: &[Slot]) -> Result<Found, BlockFault>
    ensures { result ≡ report slots.now (layout block.now) }
{
    let mut pass = Pass {
        slots,
        found: Found::default(),
    };
    for field in Fields::of(block, 0) {
        let part = field?;
        pass.go_past(part.tag, part.field.bytes());
    }
    Ok(pass.finish())
}
