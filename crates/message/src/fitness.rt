//! Which values are fit for a field.
ghost use Rattle.std.specs.Prelude.{◌≡◌};
ghost use Rattle.message.specs.Fitness.{fits};

use dates::date::Date;
use octets::readable::Readable;
use tags::listing::Tag;
use values::amount::Amount;
use values::member_code::MemberCode;
use values::reason_code::ReasonCode;
use values::status_code::StatusCode;
use values::text::{EndToEnd, Text};
use values::uetr::Uetr;

/// Whether the bytes are fit as a value of this tag. Identifiers and plain numbers are not judged here.
pub(crate) fn is_fit(tag: Tag, value: &[u8]) -> bool
    ensures { result ≡ fits tag value.now }
{
    match tag {
        Tag::CreationDate => Date::read(value).is_some(),
        Tag::Assigner | Tag::Assignee | Tag::DebtorAgent | Tag::CreditorAgent => {
            MemberCode::read(value).is_some()
        }
        Tag::Uetr => Uetr::read(value).is_some(),
        Tag::EndToEnd => EndToEnd::read(value).is_some(),
        Tag::Amount => Amount::read(value).is_some(),
        Tag::Status => StatusCode::read(value).is_some(),
        Tag::Reason => ReasonCode::read(value).is_some(),
        Tag::Text => Text::read(value).is_some(),
        _ => true,
    }
}
