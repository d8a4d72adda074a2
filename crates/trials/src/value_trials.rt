//! Values, run at the edges of what is fit.
use crate::making::fit;
use crate::value_trials::Fits::{Both, Neither, TextOnly};
use dates::date::Date;
use octets::readable::Readable;
use std::process::Abort;
use std::test::*;
use values::amount::Amount;
use values::identifier::Identifier;
use values::member_code::MemberCode;
use values::reason_code::ReasonCode;
use values::status_code::StatusCode;
use values::text::{EndToEnd, Text};
use values::uetr::Uetr;

/// Bytes that are fit, or that are not. No `Result`, since bytes that are unfit are no error here: both are given.
#[derive(Clone, Copy)]
enum Case {
    Fit(&'static [u8]),
    Unfit(&'static [u8]),
}

impl Case {
    fn bytes(&self) -> &'static [u8] {
        match *self {
            Case::Fit(bytes) | Case::Unfit(bytes) => bytes,
        }
    }

    /// Checks what came of reading the bytes: where they are fit they are given back, else there is nothing.
    fn expect<const N: usize>(&self, rt: &impl Abort, back: Option<[u8; N]>) -> Result<(), Fail> {
        let agrees = match (*self, back) {
            (Case::Fit(bytes), Some(back)) => bytes == back.as_slice(),
            (Case::Unfit(_), None) => true,
            _ => false,
        };
        assert!(rt; agrees, "{:?}", self.bytes());
        Ok(())
    }
}

const DATES: [Case; 21] = [
    Case::Fit(b"20000101"),
    Case::Fit(b"20000229"),
    Case::Fit(b"20240229"),
    Case::Fit(b"20240430"),
    Case::Fit(b"20240131"),
    Case::Fit(b"20990101"),
    Case::Fit(b"20991231"),
    Case::Unfit(b"19991231"),
    Case::Unfit(b"20230229"),
    Case::Unfit(b"20240230"),
    Case::Unfit(b"20240431"),
    Case::Unfit(b"20240132"),
    Case::Unfit(b"20241301"),
    Case::Unfit(b"20240001"),
    Case::Unfit(b"20240100"),
    Case::Unfit(b"21000101"),
    Case::Unfit(b"21000229"),
    Case::Unfit(b"2024030"),
    Case::Unfit(b"202403011"),
    Case::Unfit(b"2024MAR1"),
    Case::Unfit(b""),
];

#[test]
fn dates(rt: HostRuntime) -> Result<(), Fail> {
    for case in DATES.iter() {
        case.expect(&rt, Date::read(case.bytes()).map(|date| date.digits()))?;
    }
    Ok(())
}

/// Dates, each with the day before it.
const DAYS: [(&[u8; 8], &[u8; 8]); 8] = [
    (b"20240301", b"20240229"),
    (b"20230301", b"20230228"),
    (b"20000301", b"20000229"),
    (b"20240501", b"20240430"),
    (b"20240801", b"20240731"),
    (b"20010101", b"20001231"),
    (b"20991231", b"20991230"),
    (b"20000102", b"20000101"),
];

#[test]
fn days_before(rt: HostRuntime) -> Result<(), Fail> {
    for (day, expected) in DAYS.iter() {
        let day: Date = fit(*day)?;
        let before = day.day_before().ok_or("no day before")?;
        assert_eq!(rt; before.digits(), **expected);
        assert!(rt; before.is_before(&day) && !day.is_before(&before));
    }
    let first: Date = fit(b"20000101")?;
    assert!(rt; first.day_before().is_none() && !first.is_before(&first));
    Ok(())
}

/// Numbers of kopecks, the bytes of each, and whether it is an amount.
const SUMS: [(u64, [u8; 8], bool); 6] = [
    (0, [0; 8], false),
    (1, [0, 0, 0, 0, 0, 0, 0, 1], true),
    (256, [0, 0, 0, 0, 0, 0, 1, 0], true),
    (
        999_999_999_999_999,
        [0x00, 0x03, 0x8d, 0x7e, 0xa4, 0xc6, 0x7f, 0xff],
        true,
    ),
    (
        1_000_000_000_000_000,
        [0x00, 0x03, 0x8d, 0x7e, 0xa4, 0xc6, 0x80, 0x00],
        false,
    ),
    (u64::MAX, [255; 8], false),
];

#[test]
fn amounts(rt: HostRuntime) -> Result<(), Fail> {
    for (kopecks, bytes, fit) in SUMS.iter() {
        assert_eq!(rt; Amount::new(*kopecks).is_some(), *fit);
        assert_eq!(rt;
            Amount::read(bytes).map(|amount| (amount.kopecks, amount.bytes())),
            fit.then_some((*kopecks, *bytes))
        );
    }
    assert!(rt; Amount::read(&[0, 0, 0, 0, 0, 0, 1]).is_none());
    assert!(rt; Amount::read(&[0, 0, 0, 0, 0, 0, 0, 0, 1]).is_none());
    Ok(())
}

/// What a line of text is fit for.
#[derive(Clone, Copy, PartialEq, Eq)]
enum Fits {
    Both,
    TextOnly,
    Neither,
}

/// Texts of so many bytes, all of them `A` but for the last, which is given, and what they are fit for.
const LINES: [(usize, u8, Fits); 15] = [
    (0, 65, Neither),
    (1, 65, Both),
    (35, 65, Both),
    (36, 65, TextOnly),
    (105, 65, TextOnly),
    (106, 65, Neither),
    (1, 31, Neither),
    (1, 32, Both),
    (35, 31, Neither),
    (35, 32, Both),
    (35, 126, Both),
    (35, 127, Neither),
    (105, 126, TextOnly),
    (105, 127, Neither),
    (35, 0, Neither),
];

#[test]
fn texts(rt: HostRuntime) -> Result<(), Fail> {
    for (len, last, fits) in LINES.iter() {
        let mut whole = [65; 106];
        let bytes = &mut whole[..(*len).min(106)];
        if let Some(byte) = bytes.last_mut() {
            *byte = *last;
        }
        // Two readings written out: one function over the width would need a bound on it.
        let end_to_end = EndToEnd::read(bytes);
        assert_eq!(rt;
            end_to_end.as_ref().map(|text| text.bytes()),
            (*fits == Both).then_some(&*bytes)
        );
        let text = Text::read(bytes);
        assert_eq!(rt;
            text.as_ref().map(|text| text.bytes()),
            (*fits != Neither).then_some(&*bytes)
        );
    }
    Ok(())
}

const MEMBER_CODES: [Case; 10] = [
    Case::Fit(b"000000"),
    Case::Fit(b"300001"),
    Case::Fit(b"999999"),
    Case::Unfit(b""),
    Case::Unfit(b"30000"),
    Case::Unfit(b"3000011"),
    Case::Unfit(b"30000A"),
    Case::Unfit(b"30000/"),
    Case::Unfit(b"30000:"),
    Case::Unfit(b" 30000"),
];

/// Statuses and reasons, which have the same form.
const SHORT_CODES: [Case; 14] = [
    Case::Fit(b"ACCP"),
    Case::Fit(b"RR04"),
    Case::Fit(b"AZ09"),
    Case::Fit(b"0000"),
    Case::Unfit(b""),
    Case::Unfit(b"ACC"),
    Case::Unfit(b"ACCPT"),
    Case::Unfit(b"accp"),
    Case::Unfit(b"ACCp"),
    Case::Unfit(b"ACC "),
    Case::Unfit(b"ACC/"),
    Case::Unfit(b"ACC:"),
    Case::Unfit(b"ACC@"),
    Case::Unfit(b"ACC["),
];

const REFERENCES: [Case; 7] = [
    Case::Fit(&[0, 0, 0, 0, 0, 0, 0, 0, 0, 0, 0, 0, 0, 0, 0, 1]),
    Case::Fit(&[1, 0, 0, 0, 0, 0, 0, 0, 0, 0, 0, 0, 0, 0, 0, 0]),
    Case::Fit(&[255; 16]),
    Case::Unfit(&[0; 16]),
    Case::Unfit(&[1; 15]),
    Case::Unfit(&[1; 17]),
    Case::Unfit(&[]),
];

#[test]
fn codes(rt: HostRuntime) -> Result<(), Fail> {
    for case in MEMBER_CODES.iter() {
        case.expect(&rt, MemberCode::read(case.bytes()).map(|code| code.bytes))?;
    }
    for case in SHORT_CODES.iter() {
        case.expect(&rt, ReasonCode::read(case.bytes()).map(|code| code.bytes))?;
        case.expect(&rt, StatusCode::read(case.bytes()).map(|code| code.bytes))?;
    }
    for case in REFERENCES.iter() {
        case.expect(
            &rt,
            Uetr::read(case.bytes()).map(|reference| reference.bytes),
        )?;
    }
    Ok(())
}

/// Identifiers, those that are fit being of the member 300001 and of 1 March 2024.
const IDENTIFIERS: [Case; 11] = [
    Case::Fit(b"30000120240301000001"),
    Case::Fit(b"30000120240301A0000Z"),
    Case::Unfit(b"3000012024030100000a"),
    Case::Unfit(b"30000120240301a00001"),
    Case::Unfit(b"30000120240301 00001"),
    Case::Unfit(b"30000120230229000001"),
    Case::Unfit(b"30000121000101000001"),
    Case::Unfit(b"A0000120240301000001"),
    Case::Unfit(b"3000012024030100001"),
    Case::Unfit(b"300001202403010000001"),
    Case::Unfit(b""),
];

#[test]
fn identifiers(rt: HostRuntime) -> Result<(), Fail> {
    let (sender, other): (MemberCode, MemberCode) = (fit(b"300001")?, fit(b"300002")?);
    let (day, next): (Date, Date) = (fit(b"20240301")?, fit(b"20240302")?);
    for case in IDENTIFIERS.iter() {
        let read = Identifier::read(case.bytes());
        case.expect(&rt, read.map(|id| id.bytes))?;
        if let Some(id) = read {
            assert!(rt; id.begins_with(&sender) && !id.begins_with(&other));
            assert!(rt; id.dated(&day) && !id.dated(&next));
        }
    }
    Ok(())
}
