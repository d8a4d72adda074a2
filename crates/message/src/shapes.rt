//! Which fields the blocks of a message have, by its kind.
ghost use Rattle.std.specs.Prelude.{◌≡◌};
ghost use Rattle.message.specs.Messages.{role};
ghost use Rattle.message.specs.Shapes.{slot_tag, is_required, shape};

use crate::shapes::Slot::{Optional, Required};
use tags::listing::Tag;
use values::kind::Kind;

/// What a block is to its message.
#[derive(Clone, Copy, Debug, PartialEq, Eq)]
pub(crate) enum Role {
    Header,
    Transaction,
}

impl Role {
    /// The role of the block with this number: the header is block 0.
    pub(crate) fn of_block(number: u8) -> Role
        ensures { result ≡ role number }
    {
        if number == 0 {
            Role::Header
        } else {
            Role::Transaction
        }
    }
}

/// The place of a field in a block.
#[derive(Clone, Copy, Debug, PartialEq, Eq)]
pub(crate) enum Slot {
    /// The field has to stand.
    Required(Tag),
    /// The field may stand.
    Optional(Tag),
}

impl Slot {
    /// The tag of the field.
    pub(crate) fn tag(self) -> Tag
        ensures { result ≡ slot_tag self }
    {
        match self {
            Required(tag) | Optional(tag) => tag,
        }
    }

    /// Whether the field has to stand.
    pub(crate) fn is_required(self) -> bool
        ensures { result ≡ is_required self }
    {
        matches!(self, Required(_))
    }
}

// A constant cannot be put together from others, so the six tags with which both headers begin stand in each.
const REQUEST_HEADER: [Slot; 7] = [
    Required(Tag::Kind),
    Required(Tag::Identifier),
    Required(Tag::CreationDate),
    Required(Tag::Assigner),
    Required(Tag::Assignee),
    Required(Tag::NumberOfTransactions),
    Required(Tag::DebtorAgent),
];

const HEADER_WITH_ORIGINAL: [Slot; 8] = [
    Required(Tag::Kind),
    Required(Tag::Identifier),
    Required(Tag::CreationDate),
    Required(Tag::Assigner),
    Required(Tag::Assignee),
    Required(Tag::NumberOfTransactions),
    Required(Tag::OriginalKind),
    Required(Tag::OriginalIdentifier),
];

const REQUEST_TRANSACTION: [Slot; 4] = [
    Required(Tag::Uetr),
    Required(Tag::EndToEnd),
    Required(Tag::Amount),
    Required(Tag::CreditorAgent),
];

const RECALL_TRANSACTION: [Slot; 3] = [
    Required(Tag::Uetr),
    Required(Tag::EndToEnd),
    Required(Tag::Amount),
];

const ANSWER_TRANSACTION: [Slot; 5] = [
    Required(Tag::Uetr),
    Required(Tag::EndToEnd),
    Required(Tag::Status),
    Optional(Tag::Reason),
    Optional(Tag::Text),
];

/// The fields of the header or of the transactions of a message of this kind, in the order of their tags.
pub(crate) fn shape(kind: Kind, role: Role) -> &'static [Slot]
    ensures { result.now ≡ shape kind role }
{
    match (kind, role) {
        (Kind::Request, Role::Header) => &REQUEST_HEADER,
        (Kind::Request, Role::Transaction) => &REQUEST_TRANSACTION,
        (Kind::Recall | Kind::Report | Kind::Reply, Role::Header) => &HEADER_WITH_ORIGINAL,
        (Kind::Recall, Role::Transaction) => &RECALL_TRANSACTION,
        (Kind::Report | Kind::Reply, Role::Transaction) => &ANSWER_TRANSACTION,
    }
}
