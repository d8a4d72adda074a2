//! Cases and books, run: what answers make of a case, and the same calls over both forms of a book.
use crate::book_trials::Stage::{Agreed, Declined, Open, Pending, Withdrawn};
use crate::making::{fit, spoilt, with_byte};
use block::BLOCK;
use books::book::CaseBook;
use books::refusal::BookRefusal;
use books::totals::{Totals, totals_of};
use cases::case::{Case, CaseName, Original, OriginalKind, State, Subject};
use cases::state::Status;
use coding::{case_block, exact_case, read_case};
use image::book::ImageBook;
use image::saving::save;
use octets::same_bytes;
use rows::RowsBook;
use std::process::Abort;
use std::test::*;
use values::amount::Amount;
use values::identifier::Identifier;

/// The identifier of a message that opens cases.
const OPENING: &[u8; 20] = b"30000120240301000001";

/// The identifier of a message that closes cases.
const CLOSING: &[u8; 20] = b"30000220240302000002";

/// The identifier of a later message.
const LATER: &[u8; 20] = b"30000220240303000003";

/// The name of the case with this number. Case 2 has the identifier of case 1 as well, and case 3 has its reference.
fn name(number: u8) -> Result<CaseName, Fail> {
    let (opening, reference) = if number == 3 {
        (LATER, 1)
    } else {
        (OPENING, number)
    };
    Ok(CaseName {
        identifier: fit(opening)?,
        uetr: fit(&[reference; 16])?,
    })
}

/// A state, whatever message closed it.
#[derive(Clone, Copy, Debug, PartialEq, Eq)]
enum Stage {
    Open,
    Pending,
    Agreed,
    Declined,
    Withdrawn,
}

const STAGES: [Stage; 5] = [Open, Pending, Agreed, Declined, Withdrawn];

impl Stage {
    /// The state, which, where it is a closed one, was closed by this message.
    fn state(self, closing: Identifier) -> State {
        match self {
            Open => State::Open,
            Pending => State::Pending,
            Agreed => State::Agreed(closing),
            Declined => State::Declined(closing),
            Withdrawn => State::Withdrawn(closing),
        }
    }
}

/// A stage, and the bytes of the identifier of the message that closed it, if it is closed.
type Seen = (Stage, Option<[u8; 20]>);

/// What is seen of a state.
fn seen(state: State) -> Seen {
    match state {
        State::Open => (Open, None),
        State::Pending => (Pending, None),
        State::Agreed(closing) => (Agreed, Some(closing.bytes)),
        State::Declined(closing) => (Declined, Some(closing.bytes)),
        State::Withdrawn(closing) => (Withdrawn, Some(closing.bytes)),
    }
}

/// What is to be seen of a state that came of a message with these bytes as its identifier.
fn closed_by(stage: Stage, closing: &[u8; 20]) -> Seen {
    match stage {
        Open | Pending => (stage, None),
        Agreed | Declined | Withdrawn => (stage, Some(*closing)),
    }
}

/// What the case with this number is about: a recall where the number is even, else a request.
fn subject(number: u8) -> Result<Subject, Fail> {
    if number % 2 == 0 {
        Ok(Subject::Recall(Original {
            kind: OriginalKind::InstitutionTransfer,
            identifier: fit(LATER)?,
        }))
    } else {
        Ok(Subject::Request)
    }
}

/// The case with this number, in a state.
fn case(number: u8, state: State) -> Result<Case, Fail> {
    Ok(Case {
        name: name(number)?,
        subject: subject(number)?,
        amount: Amount::new(u64::from(number)).ok_or("no amount")?,
        opener: fit(b"300001")?,
        state,
        ..Case::vacant()
    })
}

const STATUSES: [Status; 6] = [
    Status::Accepted,
    Status::Rejected,
    Status::Pending,
    Status::AcceptedCancellation,
    Status::RejectedCancellation,
    Status::PendingCancellation,
];

/// A state, that after each of the statuses, and that after a withdrawal.
#[derive(Clone, Copy)]
struct Answer(Stage, [Option<Stage>; 6], Option<Stage>);

const ANSWERS: [Answer; 5] = [
    Answer(
        Open,
        [
            Some(Agreed),
            Some(Declined),
            Some(Pending),
            Some(Agreed),
            Some(Declined),
            Some(Pending),
        ],
        Some(Withdrawn),
    ),
    Answer(
        Pending,
        [
            Some(Agreed),
            Some(Declined),
            Some(Pending),
            Some(Agreed),
            Some(Declined),
            Some(Pending),
        ],
        Some(Withdrawn),
    ),
    Answer(Agreed, [None; 6], None),
    Answer(Declined, [None; 6], None),
    Answer(Withdrawn, [None; 6], None),
];

#[test]
fn answers(rt: HostRuntime) -> Result<(), Fail> {
    let (closing, later) = (fit(CLOSING)?, fit(LATER)?);
    for Answer(stage, after, withdrawn) in ANSWERS {
        let case = case(1, stage.state(closing))?;
        for (status, next) in STATUSES.iter().zip(after) {
            assert_eq!(rt;
                case.after(*status, later).map(seen),
                next.map(|next| closed_by(next, LATER)),
                "in state {stage:?}"
            );
        }
        assert_eq!(rt;
            case.after_withdrawal(later).map(seen),
            withdrawn.map(|next| closed_by(next, LATER)),
            "in state {stage:?}"
        );
        let closed = stage != Open && stage != Pending;
        assert_eq!(rt; case.state.is_closed(), closed, "in state {stage:?}");
    }
    Ok(())
}

/// Numbers of states, with and without a closing identifier, and the state, if there is such a one.
const STATES: [(u8, bool, Option<Stage>); 14] = [
    (0, false, None),
    (0, true, None),
    (1, false, Some(Open)),
    (1, true, None),
    (2, false, Some(Pending)),
    (2, true, None),
    (3, false, None),
    (3, true, Some(Agreed)),
    (4, false, None),
    (4, true, Some(Declined)),
    (5, false, None),
    (5, true, Some(Withdrawn)),
    (6, false, None),
    (6, true, None),
];

#[test]
fn state_numbers(rt: HostRuntime) -> Result<(), Fail> {
    let closing = fit(CLOSING)?;
    for (number, closed, expected) in STATES.iter() {
        let read = State::read(*number, closed.then_some(closing));
        assert_eq!(rt;
            read.map(seen),
            expected.map(|stage| closed_by(stage, CLOSING)),
            "number {number}"
        );
        if let Some(state) = read {
            assert_eq!(rt; state.number(), *number);
            assert_eq!(rt;
                state.closing().map(|back| back.bytes),
                closed.then_some(*CLOSING)
            );
        }
    }
    Ok(())
}

/// Numbers, and whether each is that of a kind that a recall may be of.
const ORIGINALS: [(u8, bool); 9] = [
    (0, false),
    (7, false),
    (8, true),
    (9, true),
    (10, false),
    (12, false),
    (13, true),
    (14, false),
    (255, false),
];

#[test]
fn kind_numbers(rt: HostRuntime) -> Result<(), Fail> {
    for (number, stands) in ORIGINALS.iter() {
        assert_eq!(rt;
            OriginalKind::try_from(*number)
                .ok()
                .map(|kind| kind.number()),
            stands.then_some(*number)
        );
    }
    assert_eq!(rt; OriginalKind::CustomerTransfer.number(), 8);
    assert_eq!(rt; OriginalKind::InstitutionTransfer.number(), 9);
    assert_eq!(rt; OriginalKind::Request.number(), 13);
    assert_eq!(rt; subject(1)?.number(), 13);
    assert_eq!(rt; subject(2)?.number(), 56);
    Ok(())
}

/// A call of a book.
#[derive(Clone, Copy)]
enum Call {
    /// Opens the case with this number, which is given in a state.
    Open(u8, Stage),
    /// Changes the case at a place to a state.
    Change(usize, Stage),
    /// Sets the state of the case with this number.
    Set(u8, Stage),
}

/// A call, its answer or the number of the refusal, and the totals of the book after it, from open to withdrawn.
#[derive(Clone, Copy)]
struct Step(Call, Result<(), u8>, [usize; 5]);

/// Calls of a book that has room for two cases.
const STEPS: [Step; 15] = [
    Step(Call::Change(0, Pending), Err(51), [0, 0, 0, 0, 0]),
    Step(Call::Set(1, Pending), Ok(()), [0, 0, 0, 0, 0]),
    Step(Call::Open(1, Open), Ok(()), [1, 0, 0, 0, 0]),
    Step(Call::Open(1, Open), Err(52), [1, 0, 0, 0, 0]),
    Step(Call::Change(1, Agreed), Err(51), [1, 0, 0, 0, 0]),
    Step(Call::Open(2, Agreed), Ok(()), [2, 0, 0, 0, 0]),
    Step(Call::Open(3, Open), Err(53), [2, 0, 0, 0, 0]),
    Step(Call::Open(2, Open), Err(52), [2, 0, 0, 0, 0]),
    Step(Call::Change(2, Pending), Err(51), [2, 0, 0, 0, 0]),
    Step(Call::Change(1, Pending), Ok(()), [1, 1, 0, 0, 0]),
    Step(Call::Set(2, Agreed), Ok(()), [1, 0, 1, 0, 0]),
    Step(Call::Set(3, Declined), Ok(()), [1, 0, 1, 0, 0]),
    Step(Call::Change(0, Withdrawn), Ok(()), [0, 0, 1, 0, 1]),
    Step(Call::Change(usize::MAX, Open), Err(51), [0, 0, 1, 0, 1]),
    Step(Call::Set(1, Declined), Ok(()), [0, 0, 1, 1, 0]),
];

// The numbers are what is tried, so a `BookRefusal` in the tables would be no plainer.

/// The answer, or the number of the refusal.
fn numbered<T: Copy>(answer: Result<T, BookRefusal>) -> Result<T, u8> {
    answer.map_err(|refusal| refusal.number())
}

/// Makes a call, and gives its answer or the number of the refusal.
fn make<B: CaseBook>(book: &mut B, call: Call) -> Result<Result<(), u8>, Fail>
    requires { B.sound book.old }
    ensures { B.sound book.new }
{
    let closing = fit(CLOSING)?;
    match call {
        Call::Open(number, given) => {
            let case = case(number, given.state(closing))?;
            Ok(numbered(book.open(case)))
        }
        Call::Change(at, to) => Ok(numbered(book.change(at, to.state(closing)))),
        Call::Set(number, to) => {
            let name = name(number)?;
            book.set_state(&name, to.state(closing));
            Ok(Ok(()))
        }
    }
}

/// Checks how many cases of a book are in each state, and how many there are in all.
fn has_totals<B: CaseBook>(
    rt: &impl Abort,
    book: &B,
    expected: [usize; 5],
    row: usize,
) -> Result<(), Fail>
    requires { B.sound book.now }
{
    let [open, pending, agreed, declined, withdrawn] = expected;
    let totals = Totals {
        open,
        pending,
        agreed,
        declined,
        withdrawn,
    };
    assert_eq!(rt; totals_of(book), totals, "step {row}");
    let all = expected
        .iter()
        .fold(0usize, |all, total| all.saturating_add(*total));
    assert_eq!(rt; book.count(), all, "step {row}");
    Ok(())
}

/// Makes the calls of the table.
fn exercise<B: CaseBook>(rt: &impl Abort, book: &mut B) -> Result<(), Fail>
    requires { B.sound book.old }
    ensures { B.sound book.new }
{
    for (row, step) in STEPS.iter().enumerate() {
        let Step(call, answer, totals) = *step;
        assert_eq!(rt; make(book, call)?, answer, "step {row}");
        has_totals(rt, book, totals, row)?;
    }
    Ok(())
}

/// Checks what a book shows after the calls of the table: case 1, declined, then case 2, agreed, and no other.
fn shows<B: CaseBook>(rt: &impl Abort, book: &B) -> Result<(), Fail>
    requires { B.sound book.now }
{
    let closing = fit(CLOSING)?;
    let first = case(1, State::Declined(closing))?;
    let second = case(2, State::Agreed(closing))?;
    let absent = name(3)?;
    assert_eq!(rt; book.capacity(), 2);
    assert_eq!(rt; book.find(&first.name), Some(0));
    assert_eq!(rt; book.find(&second.name), Some(1));
    assert_eq!(rt; book.find(&absent), None);
    assert!(rt; book.case_at(0) == Some(first));
    assert!(rt; book.look(&second.name) == Some(second));
    assert!(rt; book.case_at(2).is_none() && book.look(&absent).is_none());
    Ok(())
}

#[test]
fn rows_books(rt: HostRuntime) -> Result<(), Fail> {
    let mut rows = [Case::vacant(); 2];
    let mut book = RowsBook::over(&mut rows)?;
    exercise(&rt, &mut book)?;
    shows(&rt, &book)
}

#[test]
fn image_books(rt: HostRuntime) -> Result<(), Fail> {
    let mut bytes = [9; 2 * BLOCK];
    {
        let mut book = ImageBook::new(&mut bytes)?;
        exercise(&rt, &mut book)?;
        shows(&rt, &book)?;
    }
    let again = ImageBook::mount(&mut bytes)?;
    shows(&rt, &again)
}

/// The number of cases of a book over rows, and how many there is room for.
fn laid_over(rows: &mut [Case]) -> Result<(usize, usize), BookRefusal> {
    let book = RowsBook::over(rows)?;
    Ok((book.count(), book.capacity()))
}

/// Numbers of rows, and whether they are those of a book, or the number of the refusal.
const SIZES: [(usize, Result<(), u8>); 4] = [
    (0, Err(50)),
    (1, Ok(())),
    (4096, Ok(())),
    (4097, Err(50)),
];

#[test]
fn sizes(rt: HostRuntime) -> Result<(), Fail> {
    for (len, fit) in SIZES.iter() {
        let mut rows = vec![in rt.alloc(); Case::vacant(); *len]?;
        assert_eq!(rt;
            numbered(laid_over(rows.as_mut_slice())),
            fit.map(|()| (0, *len))
        );
    }
    Ok(())
}

// A line each: one function over what is called and what is counted would be no plainer.

/// How many cases there is room for in an empty book over bytes.
fn emptied(bytes: &mut [u8]) -> Result<usize, BookRefusal> {
    Ok(ImageBook::new(bytes)?.capacity())
}

/// How many cases there are in the book whose image the bytes are.
fn mounted(bytes: &mut [u8]) -> Result<usize, BookRefusal> {
    Ok(ImageBook::mount(bytes)?.count())
}

/// Lengths of bytes, and how many cases there is room for in them, or the number of the refusal.
const LENGTHS: [(usize, Result<usize, u8>); 9] = [
    (0, Err(50)),
    (1, Err(50)),
    (511, Err(50)),
    (512, Ok(1)),
    (513, Err(50)),
    (1024, Ok(2)),
    (1025, Err(50)),
    (2_097_152, Ok(4096)),
    (2_097_664, Err(50)),
];

#[test]
fn image_lengths(rt: HostRuntime) -> Result<(), Fail> {
    for (len, room) in LENGTHS.iter() {
        let none = room.map(|_| 0);
        let mut bytes = vec![in rt.alloc(); 0; *len]?;
        assert_eq!(rt; numbered(mounted(bytes.as_mut_slice())), none);
        let mut bytes = vec![in rt.alloc(); 9; *len]?;
        assert_eq!(rt; numbered(emptied(bytes.as_mut_slice())), *room);
        assert_eq!(rt; numbered(mounted(bytes.as_mut_slice())), none);
    }
    Ok(())
}

/// A block of an image. The first number is that of its case.
#[derive(Clone, Copy)]
enum Piece {
    Blank,
    /// The case in this state.
    Holds(u8, Stage),
    /// The open case, but one bit of the byte at this place is another one, and the check is left.
    Spoilt(u8, usize),
    /// The open case, but the byte at this place is this one, and the check is right again.
    Set(u8, usize, u8),
}

/// The block of a case.
fn held(number: u8, stage: Stage) -> Result<[u8; BLOCK], Fail> {
    Ok(case_block(&case(number, stage.state(fit(CLOSING)?))?))
}

/// The bytes of a block.
fn laid(piece: Piece) -> Result<[u8; BLOCK], Fail> {
    match piece {
        Piece::Blank => Ok([0; BLOCK]),
        Piece::Holds(number, stage) => held(number, stage),
        Piece::Spoilt(number, place) => Ok(spoilt(held(number, Open)?, place)),
        Piece::Set(number, place, byte) => Ok(with_byte(held(number, Open)?, place, byte)),
    }
}

#[test]
fn blocks_of_cases(rt: HostRuntime) -> Result<(), Fail> {
    for number in 1..3 {
        for stage in STAGES {
            let case = case(number, stage.state(fit(CLOSING)?))?;
            let block = case_block(&case);
            assert!(rt; read_case(&block) == Some(case));
            assert!(rt; exact_case(&block) == Some(case));
        }
    }
    // a recall as a request: the case is there, and so is an original, which no request has
    let block = laid(Piece::Set(2, 2, 13))?;
    assert!(rt; read_case(&block).is_some() && exact_case(&block).is_none());
    Ok(())
}

/// Two blocks, and how many cases there are where they are mounted, or the number of the refusal.
#[derive(Clone, Copy)]
struct Image(Piece, Piece, Result<usize, u8>);

const IMAGES: [Image; 29] = [
    Image(Piece::Blank, Piece::Blank, Ok(0)),
    Image(Piece::Holds(1, Open), Piece::Blank, Ok(1)),
    Image(Piece::Holds(2, Withdrawn), Piece::Holds(1, Declined), Ok(2)),
    // a blank block before a case, and the same name twice
    Image(Piece::Blank, Piece::Holds(1, Open), Err(50)),
    Image(Piece::Holds(1, Open), Piece::Holds(1, Open), Err(50)),
    Image(Piece::Holds(2, Open), Piece::Holds(2, Agreed), Err(50)),
    // a spoilt byte, with the check as it was
    Image(Piece::Spoilt(1, 0), Piece::Blank, Err(50)),
    Image(Piece::Spoilt(1, 5), Piece::Blank, Err(50)),
    Image(Piece::Spoilt(1, 100), Piece::Blank, Err(50)),
    Image(Piece::Spoilt(1, 509), Piece::Blank, Err(50)),
    Image(Piece::Spoilt(1, 510), Piece::Blank, Err(50)),
    Image(Piece::Spoilt(1, 511), Piece::Blank, Err(50)),
    Image(Piece::Holds(1, Open), Piece::Spoilt(2, 0), Err(50)),
    Image(Piece::Holds(1, Open), Piece::Spoilt(2, 511), Err(50)),
    // another kind, an unfit identifier, and a fit one
    Image(Piece::Set(1, 2, 14), Piece::Blank, Err(50)),
    Image(Piece::Set(1, 24, b'a'), Piece::Blank, Err(50)),
    Image(Piece::Set(1, 24, b'A'), Piece::Blank, Ok(1)),
    // a request with another state: those from 3 on ask for a closing identifier
    Image(Piece::Set(1, 43, 0), Piece::Blank, Err(50)),
    Image(Piece::Set(1, 43, 2), Piece::Blank, Ok(1)),
    Image(Piece::Set(1, 43, 3), Piece::Blank, Err(50)),
    // a recall of another kind of original, and one that is said to be a request
    Image(Piece::Set(2, 43, 8), Piece::Blank, Ok(1)),
    Image(Piece::Set(2, 43, 10), Piece::Blank, Err(50)),
    Image(Piece::Set(2, 2, 13), Piece::Blank, Err(50)),
    // no field at the front, a tag that is no field's, and an end-to-end identification that is not printable
    Image(Piece::Set(1, 0, 0), Piece::Blank, Err(50)),
    Image(Piece::Set(1, 62, 15), Piece::Blank, Err(50)),
    Image(Piece::Set(1, 64, 31), Piece::Blank, Err(50)),
    // an amount of nothing, and a byte behind the last field
    Image(Piece::Set(1, 74, 0), Piece::Blank, Err(50)),
    Image(Piece::Set(1, 75, 1), Piece::Blank, Err(50)),
    Image(Piece::Holds(1, Open), Piece::Set(2, 509, 1), Err(50)),
];

#[test]
fn images(rt: HostRuntime) -> Result<(), Fail> {
    for (row, image) in IMAGES.iter().enumerate() {
        let Image(first, second, expected) = *image;
        let mut blocks = [laid(first)?, laid(second)?];
        assert_eq!(rt;
            numbered(mounted(blocks.as_flattened_mut())),
            expected,
            "row {row}"
        );
    }
    Ok(())
}

/// Lengths that are not that of an image of two cases.
const OTHER_LENGTHS: [usize; 6] = [0, 511, 512, 1023, 1025, 1536];

/// Checks that a book of two cases is not saved into bytes of another length, which are left as they are.
fn is_not_saved<B: CaseBook>(rt: &impl Abort, book: &B) -> Result<(), Fail>
    requires { B.sound book.now }
{
    for len in OTHER_LENGTHS {
        let mut bytes = [7; 3 * BLOCK];
        assert_eq!(rt;
            numbered(save(book, &mut bytes[0..len.min(3 * BLOCK)])),
            Err(50)
        );
        assert_eq!(rt; bytes, [7; 3 * BLOCK]);
    }
    Ok(())
}

#[test]
fn saving(rt: HostRuntime) -> Result<(), Fail> {
    let mut rows = [Case::vacant(); 2];
    let mut image = [9; 2 * BLOCK];
    let mut bytes = [7; 2 * BLOCK];
    let mut of_rows = RowsBook::over(&mut rows)?;
    exercise(&rt, &mut of_rows)?;
    let mut of_blocks = ImageBook::new(&mut image)?;
    exercise(&rt, &mut of_blocks)?;
    is_not_saved(&rt, &of_rows)?;
    is_not_saved(&rt, &of_blocks)?;
    save(&of_rows, &mut bytes)?;
    assert!(rt; same_bytes(&bytes, of_blocks.bytes()));
    let again = ImageBook::mount(&mut bytes)?;
    shows(&rt, &again)
}
