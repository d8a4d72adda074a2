//! The commands of a script, from the words of a line.
use crate::assigning::{Assigned, assignment};
use crate::faults::{LineFault, ScriptError, Wanted};
use crate::hex::{number, push_bytes, sixteen_bytes};
use crate::words::split;
use cases::case::{Case, CaseName, Original, OriginalKind, State, Subject};
use octets::readable::Readable;
use std::alloc::Global;
use std::str::from_utf8;
use values::amount::Amount;
use values::identifier::Identifier;
use values::member_code::MemberCode;
use values::text::EndToEnd;
use values::uetr::Uetr;

/// What a line asks for.
#[derive(Drop)]
pub(crate) enum Command {
    /// To add a block of these fields to the message.
    Block(Vec<Assigned>),
    /// To write the blocks of the message.
    Write,
    /// To read these bytes, or else the message.
    Read(Option<Vec<u8>>),
    /// To set a byte of the message.
    Spoil(NewByte),
    /// To take all blocks from the message.
    Clear,
    New(NewBook),
    Mount(String),
    Save(String),
    Ask(Question),
}

/// The place of a byte in a block, and the value that it is to have.
#[derive(Clone, Copy)]
pub(crate) struct NewByte {
    pub block: u64,
    pub place: u64,
    pub value: u64,
}

/// The form of a new book, and how many cases it is to have room for.
#[derive(Clone, Copy)]
pub(crate) enum NewBook {
    Rows(u64),
    Image(u64),
}

/// What is asked of a book.
#[derive(Clone, Copy)]
pub(crate) enum Question {
    Open(Case),
    Change(usize, State),
    Find(CaseName),
    List,
    Totals,
}

impl Command {
    /// What the words of a line ask for, if there are words.
    pub(crate) fn read(heap: Global, line: &[u8]) -> Result<Option<Command>, ScriptError> {
        let words = split(heap, line)?;
        let Some((word, rest)) = words.as_slice().split_first() else {
            return Ok(None);
        };
        let command = match word.as_slice() {
            b"block" => Command::Block(assignments(heap, rest)?),
            b"write" => alone(rest, Command::Write)?,
            b"read" => Command::Read(given(heap, rest)?),
            b"spoil" => Command::Spoil(new_byte(rest)?),
            b"clear" => alone(rest, Command::Clear)?,
            b"new" => Command::New(new_book(rest)?),
            b"mount" => Command::Mount(file(heap, rest)?),
            b"save" => Command::Save(file(heap, rest)?),
            b"open-case" => Command::Ask(open_case(rest)?),
            b"change-case" => Command::Ask(change_case(rest)?),
            b"find-case" => Command::Ask(find_case(rest)?),
            b"book" => Command::Ask(alone(rest, Question::List)?),
            b"totals" => Command::Ask(alone(rest, Question::Totals)?),
            _ => return Err(LineFault::UnknownCommand.into()),
        };
        Ok(Some(command))
    }
}

/// What is asked for by a word with nothing behind it.
fn alone<T: Drop>(words: &[Vec<u8>], asked: T) -> Result<T, Wanted> {
    if words.is_empty() {
        Ok(asked)
    } else {
        Err(Wanted::Nothing)
    }
}

/// The fields that words assign, in their order.
fn assignments(heap: Global, words: &[Vec<u8>]) -> Result<Vec<Assigned>, ScriptError> {
    words
        .iter()
        .map(|word| assignment(heap, word))
        .try_collect(heap)
}

/// The bytes that words give in hex, if there are words.
fn given(heap: Global, words: &[Vec<u8>]) -> Result<Option<Vec<u8>>, ScriptError> {
    if words.is_empty() {
        return Ok(None);
    }
    let mut bytes = Vec::new(heap);
    for word in words {
        push_bytes(&mut bytes, word)?;
    }
    Ok(Some(bytes))
}

/// The byte that three numbers say.
fn new_byte(words: &[Vec<u8>]) -> Result<NewByte, Wanted> {
    let [block, place, value] = words else {
        return Err(Wanted::ThreeNumbers);
    };
    match (number(block), number(place), number(value)) {
        (Some(block), Some(place), Some(value)) => Ok(NewByte {
            block,
            place,
            value,
        }),
        _ => Err(Wanted::ThreeNumbers),
    }
}

/// The new book that words ask for.
fn new_book(words: &[Vec<u8>]) -> Result<NewBook, Wanted> {
    let [form, count] = words else {
        return Err(Wanted::New);
    };
    match (form.as_slice(), number(count)) {
        (b"rows", Some(count)) => Ok(NewBook::Rows(count)),
        (b"image", Some(count)) => Ok(NewBook::Image(count)),
        _ => Err(Wanted::New),
    }
}

/// The file that a word names.
fn file(heap: Global, words: &[Vec<u8>]) -> Result<String, ScriptError> {
    let [name] = words else {
        return Err(Wanted::File.into());
    };
    let name = from_utf8(name).map_err(|_| Wanted::File)?;
    Ok(String::from_str(heap, name)?)
}

fn open_case(words: &[Vec<u8>]) -> Result<Question, Wanted> {
    let [
        kind,
        id,
        reference,
        sum,
        opener,
        assignee,
        original_kind,
        original,
        text,
    ] = words
    else {
        return Err(Wanted::OpenCase);
    };
    Ok(Question::Open(Case {
        subject: subject(kind, original_kind, original)?,
        name: name(id, reference)?,
        amount: number(sum).and_then(Amount::new).ok_or(Wanted::Amount)?,
        opener: MemberCode::read(opener).ok_or(Wanted::Member)?,
        assignee: MemberCode::read(assignee).ok_or(Wanted::Member)?,
        end_to_end: EndToEnd::read(text).ok_or(Wanted::Text)?,
        state: State::Open,
    }))
}

// Kinds are matched as they are written: a number read from the word would take `08` for 8.
fn subject(kind: &[u8], original_kind: &[u8], word: &[u8]) -> Result<Subject, Wanted> {
    match (kind, original_kind, word) {
        (b"13", b"-", b"-") => Ok(Subject::Request),
        (b"13", _, _) => Err(Wanted::Original),
        (b"56", _, _) => Ok(Subject::Recall(original(original_kind, word)?)),
        _ => Err(Wanted::Kind),
    }
}

fn original(kind: &[u8], word: &[u8]) -> Result<Original, Wanted> {
    let kind = match kind {
        b"8" => OriginalKind::CustomerTransfer,
        b"9" => OriginalKind::InstitutionTransfer,
        b"13" => OriginalKind::Request,
        _ => return Err(Wanted::Original),
    };
    let identifier = identifier(word)?;
    Ok(Original { kind, identifier })
}

fn identifier(word: &[u8]) -> Result<Identifier, Wanted> {
    Identifier::read(word).ok_or(Wanted::Identifier)
}

fn name(id: &[u8], reference: &[u8]) -> Result<CaseName, Wanted> {
    let identifier = identifier(id)?;
    let uetr = sixteen_bytes(reference)
        .and_then(|bytes| Uetr::read(&bytes))
        .ok_or(Wanted::Uetr)?;
    Ok(CaseName { identifier, uetr })
}

fn change_case(words: &[Vec<u8>]) -> Result<Question, Wanted> {
    let [place, state, closing] = words else {
        return Err(Wanted::ChangeCase);
    };
    let place = number(place)
        .and_then(|place| usize::try_from(place).ok())
        .ok_or(Wanted::Place)?;
    Ok(Question::Change(place, state_of(state, closing)?))
}

fn state_of(word: &[u8], closing: &[u8]) -> Result<State, Wanted> {
    let closing = match closing {
        b"-" => None,
        _ => Some(identifier(closing)?),
    };
    match word {
        [digit] => State::read(digit.wrapping_sub(b'0'), closing).ok_or(Wanted::State),
        _ => Err(Wanted::State),
    }
}

fn find_case(words: &[Vec<u8>]) -> Result<Question, Wanted> {
    let [id, reference] = words else {
        return Err(Wanted::FindCase);
    };
    Ok(Question::Find(name(id, reference)?))
}
