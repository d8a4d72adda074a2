//! The calendar: reading and writing dates, their order, and the day before.
ghost use Rattle.std.specs.Prelude.{◌≡◌, ◌+◌, ◌-◌, ◌*◌, true, IfSome, Some};
ghost use Rattle.std.specs.Option.{option_map};
ghost use Rattle.octets.specs.Bytes.{is_digit};
ghost use Rattle.dates.specs.Dates.{DateValue, date, leap_year, month_length, real_only, read_date, digit, date_digits, earlier, OneUnlessEarlier, day_before, GreatestBefore};
ghost use Rattle.dates.specs.Views.{view};

use crate::date::Date;
use octets::readable::Readable;
use octets::{Alphabet, read_exactly};

/// The first year of which a date may be.
const FIRST_YEAR: u16 = 2000;

/// The last year of which a date may be.
const LAST_YEAR: u16 = 2099;

/// How many months a year has.
const MONTHS: u8 = 12;

/// Whether the year has a 29 February.
fn is_leap(year: u16) -> bool
    ensures { result ≡ leap_year year }
{
    year % 4 == 0 && (year % 100 != 0 || year % 400 == 0)
}

/// How many days the month has.
fn month_length(year: u16, month: u8) -> u8
    ensures { result ≡ month_length year month }
{
    match month {
        2 => { if is_leap(year) { 29 } else { 28 } }
        4 | 6 | 9 | 11 => 30,
        _ => 31,
    }
}

/// The number that two digits write.
fn two_digits(tens: u8, units: u8) -> u8
    requires tens { is_digit tens ≡ true }
    requires units { is_digit units ≡ true }
    ensures { result ≡ (tens - 48) * 10 + (units - 48) }
{
    (tens - b'0') * 10 + (units - b'0')
}

/// The last digit of a number.
fn last_digit(number: u16) -> u8
    ensures { result ≡ digit number }
{
    b'0' + (number % 10) as u8
}

impl Readable for Date {
    ghost Meaning = { DateValue };

    ghost meaning = { view };

    ghost reading = { read_date };

    ghost writing = { date_digits };

    /// The date that eight digits write: four of the year, two of the month, two of the day.
    fn read(bytes: &[u8]) -> Option<Date> {
        let digits: [u8; 8] = read_exactly(Alphabet::Digits, bytes)?;
        let [y1, y2, y3, y4, m1, m2, d1, d2] = digits;
        let year = two_digits(y1, y2) as u16 * 100 + two_digits(y3, y4) as u16;
        Date::new(year, two_digits(m1, m2), two_digits(d1, d2))
    }
}

impl Date {
    /// The date of this year, month and day, if it is real.
    pub(crate) fn new(year: u16, month: u8, day: u8) -> Option<Date>
        ensures { option_map view result ≡ real_only (date year month day) }
    {
        if (FIRST_YEAR..=LAST_YEAR).contains(&year)
            && (1..=MONTHS).contains(&month)
            && (1..=month_length(year, month)).contains(&day)
        {
            Some(Date { year, month, day })
        } else {
            None
        }
    }

    /// The eight digits that write it. Read, they give the date again.
    pub fn digits(&self) -> [u8; 8]
        ensures value { result ≡ date_digits (view self.now) }
        ensures back { read_date result ≡ Some (view self.now) }
    {
        let month = self.month as u16;
        let day = self.day as u16;
        [
            last_digit(self.year / 1000),
            last_digit(self.year / 100),
            last_digit(self.year / 10),
            last_digit(self.year),
            last_digit(month / 10),
            last_digit(month),
            last_digit(day / 10),
            last_digit(day),
        ]
    }

    /// Whether it is before the other date.
    pub fn is_before(&self, other: &Date) -> bool
        ensures value { result ≡ earlier (view self.now) (view other.now) }
        ensures one { OneUnlessEarlier (view self.now) (view other.now) }
    {
        self < other
    }

    /// The day before, which only 1 January 2000 does not have: the greatest of the dates before it.
    pub fn day_before(&self) -> Option<Date>
        ensures value { option_map view result ≡ day_before (view self.now) }
        ensures greatest { GreatestBefore (view self.now) (option_map view result) }
    {
        let Date { year, month, day } = *self;
        if day > 1 {
            Some(Date {
                year,
                month,
                day: day - 1,
            })
        } else if month > 1 {
            let before = month - 1;
            Some(Date {
                year,
                month: before,
                day: month_length(year, before),
            })
        } else if year > FIRST_YEAR {
            Some(Date {
                year: year - 1,
                month: MONTHS,
                day: 31,
            })
        } else {
            None
        }
    }
}
