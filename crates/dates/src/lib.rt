//! Days of the Gregorian calendar from 2000 to 2099.
//!
//! `date` has the type, which cannot hold a day that the calendar does not have, and `calendar` what is done with dates.
#![tactic(auto)]

mod calendar;
pub mod date;
