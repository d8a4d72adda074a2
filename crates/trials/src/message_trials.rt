//! Reading messages, run: a correct message is written, changed in a few places, and read.
use crate::making::{spoilt, with_byte};
use crate::message_trials::Change::{Empty, Omit, Put, Set, Spoil};
use block::BLOCK;
use block::writer::BlockWriter;
use content::decode::decode;
use message::read::{ReadMessage, read};
use message::refusal::Layer;
use std::alloc::AllocGlobal;
use std::process::Abort;
use std::test::*;
use values::kind::Kind;
use values::kind::Kind::{Recall, Reply, Report, Request};

/// What sets a message apart from a correct one. The first number is that of the block. A tag is given by its number, as it
/// stands in a block, and as the refusals name it in the tables below: its name there would be no plainer.
#[derive(Clone, Copy)]
enum Change {
    /// The field with this tag is left out.
    Omit(usize, u8),
    /// The field with this tag has this value, whether it has a place in the block or not.
    Put(usize, u8, &'static [u8]),
    /// The block has no fields.
    Empty(usize),
    /// The byte at this place is another one, and the check is right again.
    Set(usize, usize, u8),
    /// One bit of the byte at this place is another one, and the check is left.
    Spoil(usize, usize),
}

const KINDS: [Kind; 4] = [Request, Report, Reply, Recall];

/// The header, and the first, a middle and the last transaction of the longest message.
const BLOCKS: [u8; 4] = [0, 1, 8, 16];

/// The tags that a field may have at all.
const LISTED: [u8; 20] = [
    1, 2, 3, 4, 5, 6, 7, 8, 9, 10, 11, 12, 13, 16, 17, 18, 19, 20, 21, 22,
];

/// The tags that a block must have, by the message's kind. Block 0 is the header.
fn required(kind: Kind, block: usize) -> &'static [u8] {
    match (kind, block) {
        (Request, 0) => &[1, 2, 3, 4, 5, 6, 9],
        (_, 0) => &[1, 2, 3, 4, 5, 6, 7, 8],
        (Request, _) => &[16, 17, 18, 22],
        (Recall, _) => &[16, 17, 18],
        (Report | Reply, _) => &[16, 17, 19],
    }
}

/// The tags that a block may have beside those.
fn optional(kind: Kind, block: usize) -> &'static [u8] {
    match (kind, block) {
        (_, 0) | (Request | Recall, _) => &[],
        (Report | Reply, _) => &[20, 21],
    }
}

/// A fit value of a field.
fn fit_value(kind: Kind, tag: u8) -> &'static [u8] {
    match tag {
        1 => match kind {
            Request => &[13],
            Report => &[14],
            Reply => &[29],
            Recall => &[56],
        },
        2 | 8 | 13 => b"30000120240301000001",
        3 => b"20240301",
        4 | 5 | 9 | 22 => b"300001",
        6 => &[0, 16],
        16 => &[0, 0, 0, 0, 0, 0, 0, 0, 0, 0, 0, 0, 0, 0, 0, 9],
        17 => b"E2E",
        18 => &[0, 0, 0, 0, 0, 0, 0, 1],
        11 | 19 | 20 => b"AC04",
        21 => b"no funds",
        _ => &[13],
    }
}

impl Change {
    /// The value under a tag of a block, after this change.
    fn of_value(
        self,
        block: usize,
        tag: u8,
        value: Option<&'static [u8]>,
    ) -> Option<&'static [u8]> {
        match self {
            Omit(at, omitted) if at == block && omitted == tag => None,
            Put(at, put, bytes) if at == block && put == tag => Some(bytes),
            Empty(at) if at == block => None,
            _ => value,
        }
    }

    /// The bytes of a block, after this change.
    fn of_bytes(self, number: usize, block: [u8; BLOCK]) -> [u8; BLOCK] {
        match self {
            Set(at, place, byte) if at == number => with_byte(block, place, byte),
            Spoil(at, place) if at == number => spoilt(block, place),
            _ => block,
        }
    }
}

/// What comes of reading bytes: they read, or they are refused with this number, at this block and place. The numbers are what is
/// tried, so a `Refusal` in their place would be no plainer.
type Outcome = Result<(), (u8, u8, u16)>;

/// A correct message of a kind and of so many blocks, but for the changes.
#[derive(Clone, Copy)]
struct Message<'a> {
    kind: Kind,
    blocks: usize,
    changes: &'a [Change],
}

impl Message<'_> {
    /// The value that stands under a tag of a block.
    fn value_in(&self, block: usize, tag: u8) -> Option<&'static [u8]> {
        let correct = required(self.kind, block)
            .contains(&tag)
            .then_some(fit_value(self.kind, tag));
        self.changes.iter().fold(correct, |value, change| change.of_value(block, tag, value))
    }

    /// A block with the changes of its fields.
    fn written(&self, rt: &impl Abort, number: usize) -> Result<[u8; BLOCK], Fail> {
        let mut block = [0; BLOCK];
        let mut writer = BlockWriter::new(&mut block);
        for tag in 1..23 {
            if let Some(value) = self.value_in(number, tag) {
                assert!(rt; writer.put(tag, value).is_ok());
            }
        }
        writer.close();
        Ok(block)
    }

    /// A block with all the changes.
    fn block(&self, rt: &impl Abort, number: usize) -> Result<[u8; BLOCK], Fail> {
        let written = self.written(rt, number)?;
        Ok(
            self.changes
                .iter()
                .fold(written, |block, change| change.of_bytes(number, block)),
        )
    }

    /// What comes of reading it.
    fn outcome(&self, rt: &(impl Abort + AllocGlobal)) -> Result<Outcome, Fail> {
        let mut bytes = Vec::new(rt.alloc());
        for number in 0..self.blocks {
            bytes.extend_from_slice(&self.block(rt, number)?)?;
        }
        judged(rt, bytes.as_slice())
    }
}

/// A message that reads has a content, with a transaction for each block behind the header.
fn has_content(rt: &impl Abort, message: &ReadMessage) -> Result<(), Fail> {
    let content = decode(message).ok_or("no content")?;
    assert_eq!(rt;
        (content.transactions().len() + 1) * BLOCK,
        message.bytes().len()
    );
    Ok(())
}

/// What comes of reading bytes. The layer of a refusal is that of its number.
fn judged(rt: &impl Abort, bytes: &[u8]) -> Result<Outcome, Fail> {
    match read(bytes) {
        Ok(message) => {
            has_content(rt, &message)?;
            Ok(Ok(()))
        }
        Err(refusal) => {
            let number = refusal.number();
            assert_eq!(rt; refusal.layer() == Layer::Fields, number > 3);
            Ok(Err((number, refusal.block(), refusal.place())))
        }
    }
}

/// Lengths of byte strings of zeros, and what comes of reading them: where the length is right, there is no kind.
const LENGTHS: [(usize, Outcome); 10] = [
    (0, Err((1, 0, 0))),
    (1, Err((1, 0, 0))),
    (511, Err((1, 0, 0))),
    (512, Err((4, 0, 1))),
    (513, Err((1, 0, 0))),
    (1023, Err((1, 0, 0))),
    (8703, Err((1, 0, 0))),
    (8704, Err((4, 0, 1))),
    (8705, Err((1, 0, 0))),
    (9216, Err((1, 0, 0))),
];

#[test]
fn lengths(rt: HostRuntime) -> Result<(), Fail> {
    let zeros = [0; 9216];
    for (len, expected) in LENGTHS.iter() {
        assert_eq!(rt; judged(&rt, &zeros[0..(*len).min(9216)])?, *expected);
    }
    Ok(())
}

#[test]
fn correct_messages(rt: HostRuntime) -> Result<(), Fail> {
    for kind in KINDS {
        for (blocks, expected) in [(1, Ok(())), (2, Ok(())), (17, Ok(())), (18, Err((1, 0, 0)))] {
            let message = Message {
                kind,
                blocks,
                changes: &[],
            };
            assert_eq!(rt; message.outcome(&rt)?, expected);
        }
    }
    Ok(())
}

/// What comes of the longest message of a kind with one change.
fn changed(rt: &(impl Abort + AllocGlobal), kind: Kind, change: Change) -> Result<Outcome, Fail> {
    let message = Message {
        kind,
        blocks: 17,
        changes: &[change],
    };
    message.outcome(rt)
}

/// A tag is left out where it must stand, or put where it need not.
fn without_or_with(kind: Kind, block: usize, tag: u8) -> Change {
    if required(kind, block).contains(&tag) {
        Omit(block, tag)
    } else {
        Put(block, tag, fit_value(kind, tag))
    }
}

#[test]
fn tags(rt: HostRuntime) -> Result<(), Fail> {
    for kind in KINDS {
        for block in BLOCKS {
            for tag in LISTED {
                let number = usize::from(block);
                let change = without_or_with(kind, number, tag);
                let expected = if optional(kind, number).contains(&tag) {
                    Ok(())
                } else {
                    Err((4, block, u16::from(tag)))
                };
                assert_eq!(rt; changed(&rt, kind, change)?, expected);
            }
        }
    }
    Ok(())
}

/// Values that are unfit, each with a kind that has the tag.
const UNFIT: [(Kind, u8, &[u8]); 31] = [
    (Request, 3, b"20230229"),
    (Request, 3, b"2024030A"),
    (Request, 4, b"30000A"),
    (Request, 5, b"30000 "),
    (Request, 9, b"30000/"),
    (Report, 3, b"19991231"),
    (Report, 4, b"30000:"),
    (Report, 5, b"A00001"),
    (Reply, 3, b"21000101"),
    (Reply, 4, b"3000A1"),
    (Reply, 5, b"      "),
    (Recall, 3, b"20240100"),
    (Recall, 4, &[0; 6]),
    (Recall, 5, &[255; 6]),
    (Request, 16, &[0; 16]),
    (Request, 17, b"E2E\x7f"),
    (Request, 18, &[0; 8]),
    (
        Request,
        18,
        &[0x00, 0x03, 0x8d, 0x7e, 0xa4, 0xc6, 0x80, 0x00],
    ),
    (Request, 22, b"30000A"),
    (Report, 16, &[0; 16]),
    (Report, 17, &[31]),
    (Report, 19, b"accp"),
    (Report, 20, b"rr04"),
    (Report, 21, b"no\x7ffunds"),
    (Reply, 17, &[127; 35]),
    (Reply, 19, b"ACCp"),
    (Reply, 20, b"RR 4"),
    (Reply, 21, &[127; 105]),
    (Recall, 16, &[0; 16]),
    (Recall, 17, &[0]),
    (Recall, 18, &[255; 8]),
];

#[test]
fn unfit_values(rt: HostRuntime) -> Result<(), Fail> {
    for (kind, tag, value) in UNFIT.iter() {
        for block in BLOCKS {
            // the tags below 14 are those of headers
            if (block == 0) == (*tag < 14) {
                let change = Put(usize::from(block), *tag, *value);
                assert_eq!(rt;
                    changed(&rt, *kind, change)?,
                    Err((5, block, u16::from(*tag)))
                );
            }
        }
    }
    Ok(())
}

/// The kind and the number of blocks of a message, its changes, and what comes of reading it.
#[derive(Clone, Copy)]
struct Case(Kind, usize, &'static [Change], Outcome);

/// Reading judges neither identifiers nor plain numbers, and lets optional fields be.
const READ: [Case; 6] = [
    Case(
        Request,
        17,
        &[Put(0, 2, &[0; 20]), Put(0, 6, &[255, 255])],
        Ok(()),
    ),
    Case(
        Recall,
        17,
        &[Put(0, 7, &[99]), Put(0, 8, &[255; 20])],
        Ok(()),
    ),
    Case(
        Report,
        17,
        &[Put(1, 20, b"RR04"), Put(16, 21, b" ")],
        Ok(()),
    ),
    Case(
        Reply,
        2,
        &[Put(1, 20, b"RR04"), Put(1, 21, &[126; 105])],
        Ok(()),
    ),
    Case(Report, 17, &[Put(0, 1, &[29])], Ok(())),
    Case(Request, 2, &[Put(1, 17, &[32; 35])], Ok(())),
];

/// A wrong check, a broken layout, and which of several faults goes before the others.
const BLOCK_FAULTS: [Case; 20] = [
    Case(Request, 17, &[Spoil(0, 511)], Err((2, 0, 510))),
    Case(Request, 17, &[Spoil(8, 510)], Err((2, 8, 510))),
    Case(Request, 17, &[Spoil(16, 509)], Err((2, 16, 510))),
    Case(Recall, 1, &[Spoil(0, 0)], Err((2, 0, 510))),
    Case(Reply, 17, &[Spoil(9, 3), Spoil(4, 40)], Err((2, 4, 510))),
    Case(Request, 17, &[Set(0, 0, 14)], Err((3, 0, 0))),
    Case(Request, 17, &[Set(0, 25, 2)], Err((3, 0, 25))),
    Case(Request, 17, &[Set(8, 19, 36)], Err((3, 8, 18))),
    Case(Request, 17, &[Set(8, 23, 17)], Err((3, 8, 23))),
    Case(Request, 17, &[Set(16, 33, 23)], Err((3, 16, 33))),
    Case(Request, 17, &[Set(16, 34, 5)], Err((3, 16, 33))),
    Case(Request, 17, &[Set(16, 41, 1)], Err((3, 16, 41))),
    Case(Request, 17, &[Set(16, 42, 1)], Err((3, 16, 42))),
    Case(Request, 17, &[Set(16, 509, 1)], Err((3, 16, 509))),
    Case(
        Recall,
        17,
        &[Set(9, 0, 15), Set(4, 509, 1)],
        Err((3, 4, 509)),
    ),
    Case(Request, 18, &[Spoil(0, 511)], Err((1, 0, 0))),
    Case(
        Request,
        17,
        &[Set(0, 0, 14), Spoil(16, 511)],
        Err((2, 16, 510)),
    ),
    Case(
        Request,
        17,
        &[Omit(0, 1), Spoil(16, 511)],
        Err((2, 16, 510)),
    ),
    Case(Request, 17, &[Omit(0, 1), Set(16, 0, 14)], Err((3, 16, 0))),
    Case(
        Request,
        17,
        &[Put(0, 3, b"20230229"), Set(16, 0, 14)],
        Err((3, 16, 0)),
    ),
];

/// A kind that is absent, unknown or another one; a tag that is missing or out of place; and which fault goes before.
const FIELD_FAULTS: [Case; 29] = [
    Case(Request, 17, &[Omit(0, 1)], Err((4, 0, 1))),
    Case(Request, 1, &[Empty(0)], Err((4, 0, 1))),
    Case(Request, 17, &[Put(0, 1, &[0])], Err((4, 0, 1))),
    Case(Request, 17, &[Put(0, 1, &[12])], Err((4, 0, 1))),
    Case(Report, 17, &[Put(0, 1, &[15])], Err((4, 0, 1))),
    Case(Recall, 17, &[Put(0, 1, &[255])], Err((4, 0, 1))),
    Case(
        Request,
        17,
        &[Put(0, 1, &[15]), Put(0, 3, b"20230229")],
        Err((4, 0, 1)),
    ),
    Case(
        Request,
        17,
        &[Put(0, 1, &[15]), Omit(3, 18)],
        Err((4, 0, 1)),
    ),
    Case(Request, 17, &[Put(0, 1, &[56])], Err((4, 0, 7))),
    Case(Recall, 17, &[Put(0, 1, &[13])], Err((4, 0, 7))),
    Case(Recall, 17, &[Put(0, 1, &[14])], Err((4, 1, 18))),
    Case(Report, 17, &[Put(0, 1, &[56])], Err((4, 1, 18))),
    Case(Request, 17, &[Omit(0, 3), Put(0, 10, &[1])], Err((4, 0, 3))),
    Case(Request, 17, &[Omit(0, 9), Put(0, 7, &[13])], Err((4, 0, 7))),
    Case(
        Recall,
        17,
        &[Omit(0, 8), Put(0, 9, b"300001")],
        Err((4, 0, 8)),
    ),
    Case(
        Request,
        17,
        &[Omit(8, 16), Put(8, 1, &[13])],
        Err((4, 8, 1)),
    ),
    Case(
        Request,
        17,
        &[Omit(16, 22), Put(16, 19, b"ACCP")],
        Err((4, 16, 19)),
    ),
    Case(
        Report,
        17,
        &[Omit(16, 19), Put(16, 20, b"RR04")],
        Err((4, 16, 19)),
    ),
    Case(
        Reply,
        17,
        &[Omit(1, 17), Put(1, 18, &[1; 8])],
        Err((4, 1, 17)),
    ),
    Case(
        Report,
        17,
        &[Put(1, 20, b"RR04"), Put(1, 22, b"300001")],
        Err((4, 1, 22)),
    ),
    Case(Request, 17, &[Omit(9, 16), Omit(5, 22)], Err((4, 5, 22))),
    Case(Request, 2, &[Empty(1)], Err((4, 1, 16))),
    Case(Recall, 17, &[Empty(8)], Err((4, 8, 16))),
    Case(Report, 17, &[Empty(16)], Err((4, 16, 16))),
    Case(
        Request,
        17,
        &[Put(0, 3, b"20230229"), Omit(3, 18)],
        Err((4, 3, 18)),
    ),
    Case(
        Request,
        17,
        &[Put(0, 3, b"20230229"), Put(16, 10, &[1])],
        Err((4, 16, 10)),
    ),
    Case(
        Request,
        17,
        &[Put(0, 9, b"30000A"), Put(0, 3, b"20230229")],
        Err((5, 0, 3)),
    ),
    Case(
        Request,
        17,
        &[Put(9, 16, &[0; 16]), Put(2, 22, b"30000A")],
        Err((5, 2, 22)),
    ),
    Case(
        Request,
        17,
        &[Put(1, 16, &[0; 16]), Put(0, 9, b"30000A")],
        Err((5, 0, 9)),
    ),
];

/// Reads the messages of a table.
fn try_all(rt: &(impl Abort + AllocGlobal), cases: &[Case]) -> Result<(), Fail> {
    for (row, case) in cases.iter().enumerate() {
        let Case(kind, blocks, changes, expected) = *case;
        let message = Message {
            kind,
            blocks,
            changes,
        };
        assert_eq!(rt; message.outcome(rt)?, expected, "row {row}");
    }
    Ok(())
}

#[test]
fn tables(rt: HostRuntime) -> Result<(), Fail> {
    try_all(&rt, &READ)?;
    try_all(&rt, &BLOCK_FAULTS)?;
    try_all(&rt, &FIELD_FAULTS)
}
