//! Trips and the days of their services: trips.txt, calendar.txt and calendar_dates.txt.
#![tactic(auto)]

pub mod calendar;
pub mod calendar_dates;
pub mod laws;
pub mod trips;

pub use calendar::read_calendar;
pub use calendar_dates::read_calendar_dates;
pub use trips::{TripRows, read_trips};
