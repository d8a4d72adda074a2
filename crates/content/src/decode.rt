//! Decoding: what a read message says, all of it at once.
//! The bytes are judged again, so that every message that reads has its content and no other has any.
ghost use Rattle.std.specs.Prelude.{◌≡◌, ◌≤◌, map, length, take, is_some, is_ok};
ghost use Rattle.std.specs.Option.{option_map};
ghost use Rattle.block.specs.Fields.{fields_of};
ghost use Rattle.block.specs.Cutting.{blocks_of};
ghost use Rattle.message.specs.Messages.{read_message};
ghost use Rattle.content.specs.Views.{transactions_view, content_view};
ghost use Rattle.content.specs.Decoding.{header_kind, transactions_in, content_in, decoded};

use crate::header::{Header, read_header};
use crate::transaction::{Detail, Transaction, read_transaction};
use block::BLOCK;
use items::item;
use message::read::{ReadMessage, read};
use octets::readable::Readable;
use tags::listing::Tag;
use values::amount::Amount;
use values::kind::Kind;
use values::text::EndToEnd;
use values::uetr::Uetr;

/// The most transactions of a message.
pub const MOST: usize = 16;

/// What a message says: its header, and its transactions in their order.
#[derive(Clone, Copy)]
pub struct Content {
    pub header: Header,
    // An array with a count: there is no heap below the program, and a content can be copied.
    transactions: [Transaction; MOST],
    count: usize,
}

impl Content {
    /// The transactions.
    pub fn transactions(&self) -> &[Transaction]
        ensures value { result.now ≡ take self.now.count self.now.transactions }
        ensures most { length result.now ≤ 16 }
    {
        &self.transactions[..self.count.min(MOST)]
    }
}

/// A transaction for the places that stay empty.
fn vacant() -> Transaction {
    Transaction {
        uetr: Uetr::read(&[1; 16]).unwrap(),
        end_to_end: EndToEnd::read(b"-").unwrap(),
        detail: Detail::Recall {
            amount: Amount::new(1).unwrap(),
        },
    }
}

/// The kind that a header gives.
fn read_kind(block: &[u8]) -> Option<Kind>
    ensures { result ≡ header_kind (fields_of block.now) }
{
    Kind::try_from(item::<u8>(block, Tag::Kind)?).ok()
}

/// What the blocks behind the header say.
fn read_transactions(kind: Kind, blocks: &[[u8; BLOCK]]) -> Option<[Transaction; MOST]>
    requires { length blocks.now ≤ 16 }
    ensures { option_map (λ found. transactions_view found (length blocks.now)) result ≡ transactions_in kind (map fields_of blocks.now) }
{
    let mut transactions = [vacant(); MOST];
    for (at, block) in blocks.iter().enumerate() {
        transactions[at] = read_transaction(kind, block)?;
    }
    Some(transactions)
}

/// What blocks say, of which the first is the header.
#[tactic(auto, unfolding(crate::specs::Decoding::content_in))]
fn read_blocks(blocks: &[[u8; BLOCK]]) -> Option<Content>
    requires { length blocks.now ≤ 17 }
    ensures { option_map content_view result ≡ content_in (map fields_of blocks.now) }
{
    let (header, transactions) = blocks.split_first()?;
    let kind = read_kind(header)?;
    Some(Content {
        header: read_header(kind, header)?,
        transactions: read_transactions(kind, transactions)?,
        count: transactions.len(),
    })
}

/// What a message says. There is a content exactly where the bytes read.
pub fn decode(message: &ReadMessage<'_>) -> Option<Content>
    ensures value { option_map content_view result ≡ decoded message.now.bytes.now }
    ensures total { is_some result ≡ is_ok (read_message message.now.bytes.now) }
{
    let bytes = message.bytes();
    // Two arms, as plain as a `?`: what was read is let go, and its bytes are read on.
    match read(bytes) {
        Ok(_) => read_blocks(bytes.as_chunks::<BLOCK>().0),
        Err(_) => None,
    }
}
