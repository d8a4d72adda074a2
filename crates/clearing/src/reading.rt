//! Reading bytes as a message, and printing what it holds or why they are refused. What is printed are lines with their meanings, which
//! not every style shows, so they are answers and no `Display`.
use crate::answers::Answers;
use crate::names::name_of;
use crate::shown::Value;
use block::BLOCK;
use block::fields::Fields;
use content::decode::{Content, decode};
use content::header::Purpose;
use message::read::{ReadMessage, read};
use message::refusal::Refusal;
use std::alloc::AllocError;
use values::kind::Kind;

/// The most blocks of a message: a header and sixteen transactions.
const MOST_BLOCKS: u8 = 17;

/// Prints the message that the bytes are, or why they are none.
pub(crate) fn show_read(out: &mut Answers, bytes: &[u8]) -> Result<(), AllocError> {
    match read(bytes) {
        Ok(message) => {
            show_message(out, &message)?;
            out.answer("read: 0", "the message reads")
        }
        Err(refusal) => show_refusal(out, refusal),
    }
}

/// Prints the kind of a message that was read, and its blocks in order.
fn show_message(out: &mut Answers, message: &ReadMessage) -> Result<(), AllocError> {
    if let Some(content) = decode(message) {
        show_kind(out, &content)?;
    }
    let (blocks, _) = message.bytes().as_chunks::<BLOCK>();
    for (number, block) in (0..MOST_BLOCKS).zip(blocks) {
        show_block(out, number, block)?;
    }
    Ok(())
}

fn show_kind(out: &mut Answers, content: &Content) -> Result<(), AllocError> {
    let (kind, text, iso) = match content.header.purpose {
        Purpose::Request { .. } => (Kind::Request, "request to pay", "pain.013"),
        Purpose::Report(_) => (Kind::Report, "report on a request", "pain.014"),
        Purpose::Recall(_) => (Kind::Recall, "recall", "camt.056"),
        Purpose::Reply(_) => (Kind::Reply, "reply to a recall", "camt.029"),
    };
    let number = kind.number();
    let count = content.transactions().len();
    let announced = content.header.number;
    out.answer(
        format_args!("message: {number} {text}"),
        format_args!("its ISO name is {iso}; transactions: {count}, by its header: {announced}"),
    )
}

/// Prints the fields of a block, a line for each.
fn show_block(out: &mut Answers, number: u8, block: &[u8; BLOCK]) -> Result<(), AllocError> {
    match number {
        0 => out.answer(
            "header:",
            "the fields of block 0 hold for the whole message",
        )?,
        _ => out.answer(
            format_args!("transaction: {number}"),
            format_args!("the fields of block {number} are those of one transaction"),
        )?,
    }
    for part in Fields::of(block, number).map_while(|field| field.ok()) {
        let at = part.at;
        if let Some(name) = name_of(part.tag.number()) {
            out.answer(
                format_args!("field: {number} {at} {} {}", name.text, Value(&part)),
                format_args!("the {}, at byte {at} of block {number}", name.meaning),
            )?;
        }
    }
    Ok(())
}

/// Prints why bytes are refused.
fn show_refusal(out: &mut Answers, refusal: Refusal) -> Result<(), AllocError> {
    out.line(format_args!("read: {refusal}"))?;
    match refusal {
        Refusal::NotWhole => out.explain("refused: a message has 1 to 17 blocks of 512 bytes"),
        Refusal::WrongCheck { .. } => out.explain(
            "refused: the last two bytes of the block are not the check of the others",
        ),
        Refusal::BrokenLayout { .. } => out.explain(
            "refused: at this byte stands no field that may stand there, or a byte that should be zero",
        ),
        // In a header the kind is refused only where it gives no shape to judge the other fields by.
        Refusal::MisplacedTag { block: 0, tag: 1 } => out.explain(
            "refused: the kind is missing or not one of 13, 14, 29 and 56",
        ),
        Refusal::MisplacedTag { tag, .. } => out.explain(format_args!(
            "refused: the field {} (tag {tag}) is missing or has no place in the block",
            field_name(tag)
        )),
        Refusal::UnfitValue { tag, .. } => out.explain(format_args!(
            "refused: the value of the field {} (tag {tag}) is not of its form",
            field_name(tag)
        )),
    }
}

/// The name of the field with this tag.
fn field_name(tag: u8) -> &'static str {
    name_of(tag).map_or("unknown", |name| name.text)
}
