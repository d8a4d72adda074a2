//! The fields of a block that a line assigns.
ghost use Rattle.std.specs.Prelude.{◌≡◌, map, IfOk};
ghost use Rattle.block.specs.Block.{block_of};
ghost use Rattle.clearing.specs.Assigned.{field_value};

use crate::faults::{LineFault, RefusedField, ScriptError, Wanted};
use crate::hex::{number, push_bytes};
use crate::names::{Name, named};
use block::BLOCK;
use block::writer::BlockWriter;
use std::alloc::Global;
use tags::listing::{Form, Tag, rule_of};

/// A field that a line assigns.
#[derive(Drop)]
pub(crate) struct Assigned {
    pub name: Name,
    pub value: Vec<u8>,
}

/// Takes `NAME=VALUE` apart.
pub(crate) fn assignment(heap: Global, word: &[u8]) -> Result<Assigned, ScriptError> {
    let equals = word
        .iter()
        .position(|byte| *byte == b'=')
        .ok_or(Wanted::Field)?;
    let name = named(&word[..equals]).ok_or(LineFault::UnknownField)?;
    let value = bytes_of(heap, name, &word[equals + 1..])?;
    Ok(Assigned { name, value })
}

/// The bytes of a value: numbers are written in decimal, a UETR in hex, all else as it stands.
fn bytes_of(heap: Global, name: Name, text: &[u8]) -> Result<Vec<u8>, ScriptError> {
    let rule = rule_of(name.tag.number()).ok_or(LineFault::UnknownField)?;
    let mut bytes = Vec::new(heap);
    match (name.tag, rule.form) {
        (_, Form::Number) => push_number(&mut bytes, name, rule.most, text)?,
        (Tag::Uetr, _) => push_bytes(&mut bytes, text)?,
        _ => bytes.extend_from_slice(text)?,
    }
    Ok(bytes)
}

/// Adds the bytes of a number, high byte first, as many as the field has.
fn push_number(bytes: &mut Vec<u8>, name: Name, width: u8, text: &[u8]) -> Result<(), ScriptError> {
    let most = match width {
        1 => u64::from(u8::MAX),
        2 => u64::from(u16::MAX),
        _ => u64::MAX,
    };
    let value = number(text)
        .filter(|value| *value <= most)
        .ok_or(LineFault::NotANumber(name, most))?
        .to_be_bytes();
    let start = value.len().saturating_sub(usize::from(width));
    bytes.extend_from_slice(&value[start..])?;
    Ok(())
}

/// The block that the assigned fields make, or the first that the writer refuses.
pub(crate) fn composed(fields: &[Assigned]) -> Result<[u8; BLOCK], LineFault>
    ensures { IfOk result (λ block. block ≡ block_of (map field_value fields.now)) }
{
    let mut block = [0; BLOCK];
    let mut writer = BlockWriter::new(&mut block);
    for field in fields {
        let name = field.name;
        writer
            .put(name.tag.number(), field.value.as_slice())
            .map_err(|refusal| LineFault::Refused(RefusedField { name, refusal }))?;
    }
    writer.close();
    Ok(block)
}
