//! Making books: memory that a book accepts.
ghost use Rattle.std.specs.Prelude.{◌≡◌, ◌≤◌};
ghost use Rattle.clearing.specs.Lines.{NothingDone};

use crate::answers::Answers;
use crate::book_answers::answer_book;
use crate::commands::NewBook;
use crate::faults::{LineFault, ScriptError};
use block::BLOCK;
use books::book::MOST;
use books::refusal::BookRefusal;
use cases::case::Case;
use image::book::ImageBook;
use rows::RowsBook;
use std::alloc::{AllocError, Global};
use std::fs;

/// Memory in which a book can be made.
#[derive(Drop)]
pub(crate) enum Memory {
    Rows(Vec<Case>),
    Image(Vec<u8>),
}

/// A number that is no greater than it takes to be refused.
fn bounded(count: u64) -> usize
    ensures { result ≤ 4097 }
{
    usize::try_from(count).map_or(MOST + 1, |count| count.min(MOST + 1))
}

// One function for each form: over a type parameter for the book they would be no plainer.
impl Memory {
    /// The rows of an empty book.
    fn rows(mut rows: Vec<Case>) -> Result<Memory, BookRefusal> {
        RowsBook::over(rows.as_mut_slice())?;
        Ok(Memory::Rows(rows))
    }

    /// The image of an empty book.
    fn empty_image(mut bytes: Vec<u8>) -> Result<Memory, BookRefusal> {
        ImageBook::new(bytes.as_mut_slice())?;
        Ok(Memory::Image(bytes))
    }

    /// The image that the bytes are.
    fn image(mut bytes: Vec<u8>) -> Result<Memory, BookRefusal> {
        ImageBook::mount(bytes.as_mut_slice())?;
        Ok(Memory::Image(bytes))
    }
}

/// Makes an empty book, where its memory is accepted.
pub(crate) fn make(
    heap: Global,
    book: NewBook,
    out: &mut Answers,
) -> Result<Option<Memory>, AllocError> {
    let memory = match book {
        NewBook::Rows(count) => Memory::rows(vec![in heap; Case::vacant(); bounded(count)]?),
        NewBook::Image(count) => Memory::empty_image(vec![in heap; 0; BLOCK * bounded(count)]?),
    };
    answer_book(out, "new", &memory, "the book is there")?;
    Ok(memory.ok())
}

/// Makes the book whose image a file holds.
pub(crate) fn mount(
    rt: &HostRuntime,
    path: String,
    out: &mut Answers,
) -> Result<Option<Memory>, ScriptError>
    ensures { NothingDone result out.old out.new }
{
    let Ok(bytes) = fs::read(rt, path.as_str()) else {
        return Err(LineFault::CannotRead.into());
    };
    let memory = Memory::image(bytes);
    answer_book(out, "mount", &memory, "the book is there")?;
    Ok(memory.ok())
}
