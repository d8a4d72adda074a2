//! The message that a script composes.
ghost use Rattle.std.specs.Prelude.{◌≡◌};
ghost use Rattle.clearing.specs.Lines.{NothingDone};

use crate::answers::Answers;
use crate::assigning::{Assigned, composed};
use crate::commands::NewByte;
use crate::faults::{LineFault, ScriptError};
use crate::reading::show_read;
use crate::shown::Hex;
use block::BLOCK;
use std::alloc::{AllocError, Global};

/// What a script has built up so far: the blocks of a message.
#[derive(Drop)]
pub(crate) struct Session {
    blocks: Vec<[u8; BLOCK]>,
}

impl Session {
    /// A session with no block yet.
    pub(crate) fn new(heap: Global) -> Session {
        Session {
            blocks: Vec::new(heap),
        }
    }

    /// Adds the block that the fields make.
    pub(crate) fn add_block(
        &mut self,
        fields: &[Assigned],
        out: &mut Answers,
    ) -> Result<(), ScriptError>
        ensures session { NothingDone result self.old self.new }
        ensures out { NothingDone result out.old out.new }
    {
        let block = composed(fields)?;
        let number = self.blocks.len();
        self.blocks.push(block)?;
        out.answer(
            format_args!("block: {number}"),
            "added to the message, closed with its check",
        )?;
        Ok(())
    }

    /// Prints the blocks.
    pub(crate) fn write(&self, out: &mut Answers) -> Result<(), AllocError> {
        for (number, block) in self.blocks.iter().enumerate() {
            out.line(format_args!("write: {number} {}", Hex(block)))?;
        }
        out.explain("each block in hex: 510 bytes of fields and zeros, and two bytes of check")
    }

    /// Prints what the message reads as.
    pub(crate) fn read(&self, out: &mut Answers) -> Result<(), AllocError> {
        show_read(out, self.blocks.as_flattened())
    }

    /// Sets a byte of a block, if there is one, and leaves the check.
    pub(crate) fn spoil(&mut self, byte: NewByte, out: &mut Answers) -> Result<(), ScriptError>
        ensures session { NothingDone result self.old self.new }
        ensures out { NothingDone result out.old out.new }
    {
        let NewByte {
            block,
            place,
            value,
        } = byte;
        match (
            usize::try_from(block),
            usize::try_from(place),
            u8::try_from(value),
        ) {
            (Ok(number), Ok(at), Ok(byte)) if number < self.blocks.len() && at < BLOCK => {
                self.blocks[number][at] = byte;
            }
            _ => return Err(LineFault::NoSuchByte.into()),
        }
        out.answer(
            format_args!("spoil: {block} {place} {value}"),
            "the byte is changed and the check is not",
        )?;
        Ok(())
    }

    /// Takes all blocks from it.
    pub(crate) fn clear(&mut self, out: &mut Answers) -> Result<(), AllocError> {
        self.blocks.clear();
        out.answer("clear: 0", "the message has no block now")
    }
}
