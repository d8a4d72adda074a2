//! The header of a message: who sends it to whom, and for what.
//! What it is for depends on the kind: a request names a debtor's agent, the other kinds name an original.
ghost use Rattle.std.specs.Prelude.{◌≡◌};
ghost use Rattle.std.specs.Option.{option_map};
ghost use Rattle.block.specs.Fields.{fields_of};
ghost use Rattle.content.specs.Views.{original_view, purpose_view, header_view};
ghost use Rattle.content.specs.Decoding.{original_in, purpose_in, header_in};

use dates::date::Date;
use items::item;
use tags::listing::Tag;
use values::kind::Kind;
use values::member_code::MemberCode;

/// The original that a recall or an answer names: the number of its kind, and its identifier, neither of them judged.
#[derive(Clone, Copy)]
pub struct Original {
    // A plain number: reading does not judge it, so it may be that of no kind.
    pub kind: u8,
    pub identifier: [u8; 20],
}

/// What a message is for.
#[derive(Clone, Copy)]
pub enum Purpose {
    /// A request to pay, to the debtor's agent.
    Request { debtor_agent: MemberCode },
    /// A recall of the original.
    Recall(Original),
    /// A report on the original.
    Report(Original),
    /// A reply to the original.
    Reply(Original),
}

/// The header of a message. Its identifier is not judged.
#[derive(Clone, Copy)]
pub struct Header {
    pub identifier: [u8; 20],
    pub creation_date: Date,
    pub assigner: MemberCode,
    pub assignee: MemberCode,
    /// How many transactions the message says that it has.
    pub number: u16,
    pub purpose: Purpose,
}

/// The original that a header names.
fn read_original(block: &[u8]) -> Option<Original>
    ensures { option_map original_view result ≡ original_in (fields_of block.now) }
{
    Some(Original {
        kind: item(block, Tag::OriginalKind)?,
        identifier: item(block, Tag::OriginalIdentifier)?,
    })
}

/// What a header of this kind says that the message is for.
fn read_purpose(kind: Kind, block: &[u8]) -> Option<Purpose>
    ensures { option_map purpose_view result ≡ purpose_in kind (fields_of block.now) }
{
    match kind {
        Kind::Request => item(block, Tag::DebtorAgent).map(|debtor_agent| Purpose::Request {
            debtor_agent,
        }),
        Kind::Recall => read_original(block).map(Purpose::Recall),
        Kind::Report => read_original(block).map(Purpose::Report),
        Kind::Reply => read_original(block).map(Purpose::Reply),
    }
}

/// What the first block of a message of this kind says.
pub(crate) fn read_header(kind: Kind, block: &[u8]) -> Option<Header>
    ensures { option_map header_view result ≡ header_in kind (fields_of block.now) }
{
    Some(Header {
        identifier: item(block, Tag::Identifier)?,
        creation_date: item(block, Tag::CreationDate)?,
        assigner: item(block, Tag::Assigner)?,
        assignee: item(block, Tag::Assignee)?,
        number: item(block, Tag::NumberOfTransactions)?,
        purpose: read_purpose(kind, block)?,
    })
}
