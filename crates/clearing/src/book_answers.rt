//! Answering questions about a book. Answers are lines with their meanings, which not every style shows, so they are no `Display`.
ghost use Rattle.std.specs.Prelude.{◌≡◌, IfOk};
ghost use Rattle.image.specs.Image.{image};
ghost use Rattle.clearing.specs.Lines.{NothingDone};

use crate::answers::Answers;
use crate::commands::Question;
use crate::faults::{LineFault, ScriptError};
use crate::shown::{Hex, Quoted};
use block::BLOCK;
use books::book::CaseBook;
use books::iter::Cases;
use books::refusal::BookRefusal;
use books::totals::{Totals, totals_of};
use cases::case::{Case, State, Subject};
use image::saving::save;
use std::alloc::{AllocError, Global};
use std::{fmt, fs};

/// Adds what a book did, or why it refuses.
pub(crate) fn answer_book<T>(
    out: &mut Answers,
    word: &'static str,
    answer: &Result<T, BookRefusal>,
    done: &'static str,
) -> Result<(), AllocError> {
    match answer {
        Ok(_) => out.answer(format_args!("{word}: 0"), done),
        Err(refusal) => out.answer(
            format_args!("{word}: {}", refusal.number()),
            refusal_meaning(*refusal),
        ),
    }
}

/// What a refusal of a book means. The type is another crate's, so a `Display` would need a wrapper and be no plainer.
fn refusal_meaning(refusal: BookRefusal) -> &'static str {
    match refusal {
        BookRefusal::NoBook => "refused: the memory is not that of a book",
        BookRefusal::NoPlace => "refused: no case stands at the place",
        BookRefusal::Stands => "refused: a case of that name stands",
        BookRefusal::Full => "refused: the book is full",
    }
}

/// Answers a question about a book.
pub(crate) fn answer_question<B: CaseBook>(
    book: &mut B,
    question: Question,
    out: &mut Answers,
) -> Result<(), AllocError>
    requires { B.sound book.old }
    ensures { B.sound book.new }
{
    match question {
        Question::Open(case) => {
            let answer = book.open(case);
            answer_book(
                out,
                "open-case",
                &answer,
                "the case is open, behind the others",
            )
        }
        Question::Change(at, state) => {
            let answer = book.change(at, state);
            answer_book(out, "change-case", &answer, "the case has the state")
        }
        Question::Find(name) => match book.find(&name) {
            Some(at) => out.answer(
                format_args!("find-case: {at}"),
                "the place of the case, counted from 0",
            ),
            None => out.answer("find-case: none", "no case has the name"),
        },
        Question::List => show_cases(out, book),
        Question::Totals => show_totals(out, book),
    }
}

/// Prints the cases of a book, a line for each.
fn show_cases<B: CaseBook>(out: &mut Answers, book: &B) -> Result<(), AllocError>
    requires { B.sound book.now }
{
    for (at, case) in Cases::of(book).enumerate() {
        out.answer(
            format_args!("case: {at} {}", Listed(&case)),
            format_args!("the case at place {at} is {}", state_name(case.state)),
        )?;
    }
    Ok(())
}

/// Prints how many cases are in each state.
fn show_totals<B: CaseBook>(out: &mut Answers, book: &B) -> Result<(), AllocError>
    requires { B.sound book.now }
{
    let Totals {
        open,
        pending,
        agreed,
        declined,
        withdrawn,
    } = totals_of(book);
    out.answer(
        format_args!("totals: {open} {pending} {agreed} {declined} {withdrawn}"),
        "open, pending, agreed, declined and withdrawn cases",
    )
}

/// The name of a state. As with a refusal, a wrapper with a `Display` is no plainer.
fn state_name(state: State) -> &'static str {
    match state {
        State::Open => "open",
        State::Pending => "pending",
        State::Agreed(_) => "agreed",
        State::Declined(_) => "declined",
        State::Withdrawn(_) => "withdrawn",
    }
}

/// A case as it is listed: its kind and name, its state, what it is about, and its parties.
#[derive(Clone, Copy)]
struct Listed<'a>(&'a Case);

impl fmt::Display for Listed<'_> {
    fn fmt<W: fmt::Write>(&self, f: &mut fmt::Formatter<W>) -> fmt::Result {
        let case = self.0;
        write!(
            f,
            "{} {} {} {} {} {} {} {} {}",
            case.subject.number(),
            Quoted(&case.name.identifier.bytes),
            Hex(&case.name.uetr.bytes),
            StateAndClosing(case.state),
            case.amount.kopecks,
            Quoted(&case.opener.bytes),
            Quoted(&case.assignee.bytes),
            KindAndOriginal(case.subject),
            Quoted(case.end_to_end.bytes()),
        )
    }
}

/// The number of a state, and what closed the case.
#[derive(Clone, Copy)]
struct StateAndClosing(State);

impl fmt::Display for StateAndClosing {
    fn fmt<W: fmt::Write>(&self, f: &mut fmt::Formatter<W>) -> fmt::Result {
        let number = self.0.number();
        match self.0.closing() {
            Some(closing) => write!(f, "{number} {}", Quoted(&closing.bytes)),
            None => write!(f, "{number} -"),
        }
    }
}

/// The kind and the identifier of what is recalled.
#[derive(Clone, Copy)]
struct KindAndOriginal(Subject);

impl fmt::Display for KindAndOriginal {
    fn fmt<W: fmt::Write>(&self, f: &mut fmt::Formatter<W>) -> fmt::Result {
        match self.0 {
            Subject::Request => f.write_str("- -"),
            Subject::Recall(original) => write!(
                f,
                "{} {}",
                original.kind.number(),
                Quoted(&original.identifier.bytes),
            ),
        }
    }
}

/// The image of a book.
pub(crate) fn image_of<B: CaseBook>(heap: Global, book: &B) -> Result<Vec<u8>, AllocError>
    requires { B.sound book.now }
    ensures { IfOk result (λ bytes. bytes.items ≡ image (B.room book.now) (B.cases book.now)) }
{
    let mut bytes = vec![in heap; 0; BLOCK * book.capacity()]?;
    let _ = save(book, bytes.as_mut_slice());
    Ok(bytes)
}

/// Writes the image of a book into a file.
pub(crate) fn save_image<B: CaseBook>(
    rt: &HostRuntime,
    path: String,
    book: &B,
    out: &mut Answers,
) -> Result<(), ScriptError>
    requires { B.sound book.now }
    ensures { NothingDone result out.old out.new }
{
    let bytes = image_of(rt.alloc(), book)?;
    fs::write(rt, path.as_str(), bytes.as_slice()).map_err(|_| LineFault::CannotWrite)?;
    out.answer("save: 0", "the file holds the image of the book")?;
    Ok(())
}
