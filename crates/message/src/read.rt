//! Reading: every byte string is a message, or is refused with a number and a place.
ghost use Rattle.std.specs.Prelude.{◌≡◌, None, Err, MatchResult};
ghost use Rattle.std.specs.Result.{result_err};
ghost use Rattle.message.specs.Findings.{refused};
ghost use Rattle.message.specs.Messages.{whole, kind_by, message_kind, read_message, WrittenReadsBack, OnlyMessage};

use crate::findings::{gather, judge_checks};
use crate::refusal::Refusal;
use block::BLOCK;
use block::reader::value;
use tags::listing::Tag;
use values::kind::Kind;

/// The most bytes of a message: a header and sixteen transactions.
pub const LONGEST: usize = 17 * BLOCK;

/// A message that was read. Only `read` makes one; it is not copied, and who hands it on gives it away.
#[derive(Drop)]
pub struct ReadMessage<'a> {
    bytes: &'a [u8],
}

impl<'a> ReadMessage<'a> {
    /// The bytes that were read.
    pub fn bytes(&self) -> &'a [u8]
        ensures { result.now ≡ self.now.bytes.now }
    {
        self.bytes
    }

    /// The kind that its header gives.
    pub fn kind(&self) -> Option<Kind>
        ensures { result ≡ message_kind self.now.bytes.now }
    {
        header_kind(self.bytes)
    }
}

/// Whether bytes are 1 to 17 whole blocks.
#[tactic(auto, unfolding(crate::specs::Messages::whole))]
fn is_whole(bytes: &[u8]) -> bool
    ensures { result ≡ whole bytes.now }
{
    let len = bytes.len();
    0 < len && len % BLOCK == 0 && len <= LONGEST
}

/// The kind that the first block gives, in any bytes.
#[tactic(auto, using(std::proofs::lemmas::List::take_min), unfolding(crate::specs::Messages::message_kind))]
fn header_kind(bytes: &[u8]) -> Option<Kind>
    ensures { result ≡ message_kind bytes.now }
{
    let header = &bytes[..BLOCK.min(bytes.len())];
    value(header, Tag::Kind.number()).and_then(kind_by)
}

/// The kind that the value of its field stands for.
fn kind_by(value: &[u8]) -> Option<Kind>
    ensures { result ≡ kind_by (Some value.now) }
{
    match value {
        [number] => Kind::try_from(*number).ok(),
        _ => None,
    }
}

/// Makes the checks 1 to 5 in their order.
#[tactic(auto, using(crate::proofs::Forms::whole_parts, crate::proofs::Refusing::refused_length, crate::proofs::Refusing::refused_by))]
fn check(bytes: &[u8]) -> Result<(), Refusal>
    ensures { result_err result ≡ refused (read_message bytes.now) }
{
    if !is_whole(bytes) {
        return Err(Refusal::NotWhole);
    }
    let (blocks, _) = bytes.as_chunks::<BLOCK>();
    judge_checks(blocks)?;
    let kind = header_kind(bytes);
    gather(kind, blocks).judge(kind)
}

/// Reads a message, or says why the bytes are none. What the fields of a correct message are written as reads as those
/// fields, and no other bytes read with the same fields.
#[tactic(auto, using(crate::proofs::Forms::written_reads_back, crate::proofs::Forms::only_message))]
pub fn read(bytes: &[u8]) -> Result<ReadMessage<'_>, Refusal>
    ensures answer { MatchResult result (λ m. (m.bytes.now ≡ bytes.now) × (refused (read_message bytes.now) ≡ None)) (λ e. read_message bytes.now ≡ Err e) }
    ensures back { WrittenReadsBack }
    ensures only { OnlyMessage bytes.now }
{
    check(bytes)?;
    Ok(ReadMessage { bytes })
}
