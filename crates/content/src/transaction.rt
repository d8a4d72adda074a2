//! The transactions of a message.
//! What a transaction tells beside its references depends on the kind of the message.
ghost use Rattle.std.specs.Prelude.{◌≡◌};
ghost use Rattle.std.specs.Option.{option_map};
ghost use Rattle.block.specs.Fields.{fields_of};
ghost use Rattle.content.specs.Views.{detail_view, transaction_view};
ghost use Rattle.content.specs.Decoding.{answer_in, detail_in, transaction_in};

use items::{item, optional_item};
use tags::listing::Tag;
use values::amount::Amount;
use values::kind::Kind;
use values::member_code::MemberCode;
use values::reason_code::ReasonCode;
use values::status_code::StatusCode;
use values::text::{EndToEnd, Text};
use values::uetr::Uetr;

/// What a transaction tells beside its references.
#[derive(Clone, Copy)]
pub enum Detail {
    /// A request for an amount, to be paid to the creditor's agent.
    Request {
        amount: Amount,
        creditor_agent: MemberCode,
    },
    /// The recall of an amount.
    Recall {
        amount: Amount,
    },
    /// An answer: a status, and a reason and a text where they are given.
    Answer {
        status: StatusCode,
        reason: Option<ReasonCode>,
        text: Option<Text>,
    },
}

/// A transaction.
#[derive(Clone, Copy)]
pub struct Transaction {
    pub uetr: Uetr,
    pub end_to_end: EndToEnd,
    pub detail: Detail,
}

/// What a transaction of an answer tells.
fn read_answer(block: &[u8]) -> Option<Detail>
    ensures { option_map detail_view result ≡ answer_in (fields_of block.now) }
{
    Some(Detail::Answer {
        status: item(block, Tag::Status)?,
        reason: optional_item(block, Tag::Reason)?,
        text: optional_item(block, Tag::Text)?,
    })
}

/// What a transaction of a message of this kind tells beside its references.
fn read_detail(kind: Kind, block: &[u8]) -> Option<Detail>
    ensures { option_map detail_view result ≡ detail_in kind (fields_of block.now) }
{
    match kind {
        Kind::Request => Some(Detail::Request {
            amount: item(block, Tag::Amount)?,
            creditor_agent: item(block, Tag::CreditorAgent)?,
        }),
        Kind::Recall => item(block, Tag::Amount).map(|amount| Detail::Recall { amount }),
        Kind::Report | Kind::Reply => read_answer(block),
    }
}

/// What a later block of a message of this kind says.
pub(crate) fn read_transaction(kind: Kind, block: &[u8]) -> Option<Transaction>
    ensures { option_map transaction_view result ≡ transaction_in kind (fields_of block.now) }
{
    Some(Transaction {
        uetr: item(block, Tag::Uetr)?,
        end_to_end: item(block, Tag::EndToEnd)?,
        detail: read_detail(kind, block)?,
    })
}
