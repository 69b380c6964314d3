//! Answers to questions for the connections between two places within a window of departures.
#![tactic(auto)]

mod asking;
mod choosing;
mod places;
mod telling;
mod times;
mod walks;

pub use asking::scan_within;
pub use choosing::ENOUGH;
pub use places::{ask_within, stops_of_any};
pub use times::{Times, times_of};
