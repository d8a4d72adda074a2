//! What can go wrong with a line of a script, and what is then expected of it.
ghost use Rattle.std.specs.Prelude.{◌≡◌};
ghost use Rattle.clearing.specs.declared.faults.LineFault.TheVariants.{Expected};
ghost use Rattle.clearing.specs.declared.faults.ScriptError.TheVariants.{Memory, Line};

use crate::names::{FieldNames, Name};
use std::alloc::{AllocError, AllocFailed};
use std::fmt;
use tags::faults::FieldRefusal;
use tags::listing::{Rule, rule_of};
use thiserror::Error;

/// A line that makes no sense.
#[derive(Clone, Copy, Debug, Error)]
pub(crate) enum LineFault {
    #[error("unknown command: expected block, write, read, spoil or clear")]
    UnknownCommand,
    #[error("a quoted value does not end: expected a closing \"")]
    UnclosedQuote,
    #[error("unknown escape: expected \\\", \\\\ or \\x and two hex digits")]
    UnknownEscape,
    #[error("unknown field: expected {names}", names = FieldNames)]
    UnknownField,
    #[error("{name} takes a number from 0 to {1}", name = .0.text)]
    NotANumber(Name, u64),
    #[error("two dots stand for zeros up to a block's check: expected at most 510 bytes before them")]
    NotABlockEnd,
    #[error("{0}")]
    Refused(RefusedField),
    #[error("no such byte: expected a block of the message, a byte from 0 to 511 and a value from 0 to 255")]
    NoSuchByte,
    #[error("expected {0}")]
    Expected(Wanted),
    #[error("there is no book: expected new rows N, new image N or mount FILE before this line")]
    NoBook,
    #[error("cannot read the file: expected one that can be read")]
    CannotRead,
    #[error("cannot write the file: expected one that can be written")]
    CannotWrite,
}

/// What was expected in the place of some words.
#[derive(Clone, Copy, Debug, Error)]
pub(crate) enum Wanted {
    #[error("nothing behind this command")]
    Nothing,
    #[error("a field, as NAME=VALUE")]
    Field,
    #[error("pairs of hex digits")]
    HexPairs,
    #[error("three numbers: spoil BLOCK BYTE VALUE")]
    ThreeNumbers,
    #[error("new rows N or new image N")]
    New,
    #[error("the name of one file")]
    File,
    #[error("open-case KIND IDENTIFIER UETR AMOUNT OPENER ASSIGNEE ORIGINAL-KIND ORIGINAL TEXT")]
    OpenCase,
    #[error("change-case PLACE STATE CLOSING")]
    ChangeCase,
    #[error("find-case IDENTIFIER UETR")]
    FindCase,
    #[error("the kind 13 or 56")]
    Kind,
    #[error("an identifier: a member's code, a date and six capital letters or digits")]
    Identifier,
    #[error("a UETR: 32 hex digits, not all zero")]
    Uetr,
    #[error("an amount from 1 to 999999999999999")]
    Amount,
    #[error("a member's code: six digits")]
    Member,
    #[error("an original: of kind 13 none, as - -, and of kind 56 the kind 8, 9 or 13 and an identifier")]
    Original,
    #[error("a text of 1 to 35 printable characters")]
    Text,
    #[error("a place: a number from 0 on")]
    Place,
    #[error("a state from 1 to 5 and a closing identifier exactly from 3 on, else -")]
    State,
}

/// A field that the writer of a block refuses, and why.
#[derive(Clone, Copy, Debug)]
pub(crate) struct RefusedField {
    pub name: Name,
    pub refusal: FieldRefusal,
}

impl fmt::Display for RefusedField {
    fn fmt<W: fmt::Write>(&self, f: &mut fmt::Formatter<W>) -> fmt::Result {
        let number = self.refusal.number();
        let text = self.name.text;
        match (self.refusal, rule_of(self.name.tag.number())) {
            (FieldRefusal::UnlistedLength, Some(Rule { least, most, .. })) if least == most => {
                write!(f, "{number}: {text} takes {most} bytes")
            }
            (FieldRefusal::UnlistedLength, Some(Rule { least, most, .. })) => {
                write!(f, "{number}: {text} takes {least} to {most} bytes")
            }
            (FieldRefusal::NotRising, _) => write!(
                f,
                "{number}: {text} stands too late: expected the fields in the order of their tags"
            ),
            _ => write!(f, "{number}: {text} is no listed field"),
        }
    }
}

/// Why a line was not carried out.
#[derive(Clone, Copy)]
pub(crate) enum ScriptError {
    Memory,
    Line(LineFault),
}

// By hand, since the promise on lines that make no sense names the error that a `?` makes of another.
impl From<AllocError> for ScriptError {
    ghost from_gives = { λ _ r. r ≡ Memory };

    fn from(_e: AllocError) -> ScriptError {
        ScriptError::Memory
    }
}

impl<T: Drop> From<AllocFailed<T>> for ScriptError {
    ghost from_gives = { λ _ r. r ≡ Memory };

    fn from(_e: AllocFailed<T>) -> ScriptError {
        ScriptError::Memory
    }
}

impl From<LineFault> for ScriptError {
    ghost from_gives = { λ e r. r ≡ Line e };

    fn from(fault: LineFault) -> ScriptError {
        ScriptError::Line(fault)
    }
}

impl From<Wanted> for ScriptError {
    ghost from_gives = { λ e r. r ≡ Line (Expected e) };

    fn from(wanted: Wanted) -> ScriptError {
        ScriptError::Line(LineFault::Expected(wanted))
    }
}
