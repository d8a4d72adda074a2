//! Dates, which cannot hold a day that the calendar does not have.
ghost use Rattle.std.specs.Prelude.{◌≡◌, true};
ghost use Rattle.dates.specs.Dates.{date, real_date};

/// A day of the Gregorian calendar, from 1 January 2000 to 31 December 2099.
#[derive(Clone, Copy, PartialEq, Eq, PartialOrd, Ord)]
pub struct Date {
    pub(crate) year: u16,
    pub(crate) month: u8,
    pub(crate) day: u8,
    ghost real: { real_date (date year month day) ≡ true },
}
