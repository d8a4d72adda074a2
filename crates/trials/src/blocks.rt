//! Blocks, run.
use crate::making::{closed, spoilt};
use block::check::check_of;
use block::reader::{judge, value};
use block::writer::BlockWriter;
use block::{BLOCK, BODY};
use std::test::*;
use tags::listing::Tag;

/// A block with these bytes at its front and zeros behind them, closed with its check.
fn starting(front: &[u8]) -> [u8; BLOCK] {
    let mut block = [0; BLOCK];
    for (to, from) in block.iter_mut().zip(front.iter()) {
        *to = *from;
    }
    closed(block)
}

/// Whether a block reads, or the number and the place of its fault.
fn judged(block: &[u8; BLOCK]) -> Result<(), (u8, u16)> {
    judge(block).map_err(|fault| (fault.number(), fault.place()))
}

#[test]
fn checks(rt: HostRuntime) -> Result<(), Fail> {
    let mut last = [0; BLOCK];
    last[509] = 255;
    assert_eq!(rt; check_of(&starting(&[1, 1, 13])), 42);
    assert_eq!(rt; check_of(&starting(&[1, 1, 56])), 171);
    assert_eq!(rt; check_of(&last), 252 * 256 + 17);
    assert_eq!(rt; check_of(&[255; BLOCK]), (33_227_775u32 % 65521) as u16);
    Ok(())
}

/// The front of a block, and what is judged of the block where its check is right.
#[derive(Clone, Copy)]
struct Front(&'static [u8], Result<(), (u8, u16)>);

const FRONTS: [Front; 14] = [
    Front(&[], Ok(())),
    Front(&[1, 1, 13], Ok(())),
    Front(&[1, 1, 13, 6, 2, 0, 1], Ok(())),
    Front(&[6, 2, 0, 1, 1, 1, 13], Err((3, 4))),
    Front(&[1, 1, 13, 1, 1, 13], Err((3, 3))),
    Front(&[14, 6, 48, 48, 48, 48, 48, 48], Err((3, 0))),
    Front(&[15, 1, 1], Err((3, 0))),
    Front(&[1, 1, 13, 23, 1, 1], Err((3, 3))),
    Front(&[1, 2, 13, 13], Err((3, 0))),
    Front(&[1, 0], Err((3, 0))),
    Front(&[0, 1], Err((3, 1))),
    Front(&[1, 1, 13, 0, 0, 0, 9], Err((3, 6))),
    Front(&[17, 36, 65], Err((3, 0))),
    Front(&[255, 255], Err((3, 0))),
];

#[test]
fn layouts(rt: HostRuntime) -> Result<(), Fail> {
    for front in FRONTS.iter() {
        let Front(bytes, expected) = *front;
        let block = starting(bytes);
        assert_eq!(rt; judged(&block), expected);
        assert_eq!(rt; judged(&spoilt(block, BODY + 1)), Err((2, 510)));
    }
    Ok(())
}

#[test]
fn stray_at_the_end(rt: HostRuntime) -> Result<(), Fail> {
    let mut front = [0; BODY];
    front[509] = 7;
    assert_eq!(rt; judged(&starting(&front)), Err((3, 509)));
    Ok(())
}

/// A tag, the length of its value, and what comes of putting it behind an identifier, or the number of the refusal. The tag is a
/// number, since some of the numbers are those of no listed tag.
#[derive(Clone, Copy)]
struct Put(u8, usize, Result<(), u8>);

const PUTS: [Put; 14] = [
    Put(3, 8, Ok(())),
    Put(22, 6, Ok(())),
    Put(17, 1, Ok(())),
    Put(17, 35, Ok(())),
    Put(21, 105, Ok(())),
    Put(17, 0, Err(49)),
    Put(17, 36, Err(49)),
    Put(21, 106, Err(49)),
    Put(3, 7, Err(49)),
    Put(2, 20, Err(49)),
    Put(1, 1, Err(49)),
    Put(0, 1, Err(49)),
    Put(14, 6, Err(49)),
    Put(255, 1, Err(49)),
];

#[test]
fn puts(rt: HostRuntime) -> Result<(), Fail> {
    let bytes = [65; 106];
    for put in PUTS.iter() {
        let Put(tag, len, expected) = *put;
        let mut block = [9; BLOCK];
        let mut writer = BlockWriter::new(&mut block);
        assert!(rt; writer.put(Tag::Identifier.number(), &bytes[0..20]).is_ok());
        let answer = writer.put(tag, &bytes[0..len.min(106)]);
        writer.close();
        assert_eq!(rt; answer.map_err(|refusal| refusal.number()), expected);
        assert_eq!(rt; judged(&block), Ok(()));
        assert_eq!(rt; value(&block, 2), Some(&bytes[0..20]));
        assert_eq!(rt; value(&block, tag).is_some(), expected.is_ok() || tag == 2);
    }
    Ok(())
}

#[test]
fn let_go(rt: HostRuntime) -> Result<(), Fail> {
    let mut block = [9; BLOCK];
    {
        let mut writer = BlockWriter::new(&mut block);
        assert!(rt; writer.put(Tag::Kind.number(), &[13]).is_ok());
    }
    assert_eq!(rt; block, [0; BLOCK]);
    Ok(())
}
