//! Dates: days of the calendar, without a time or a zone.
//!
//! The calendar is that of the crate jiff_core, which each function calls. A contract sees a date as jiff_core's date. Only `plain` has
//! a type of that crate in its signature, so crates that have dates in theirs don't read jiff_core.
#![tactic(auto)]

mod date;
mod fault;
mod jiff_dates;
mod order;

pub use date::Date;
pub use fault::NoDate;
pub use jiff_dates::plain;
