//! The texts of formats beside lines, with the names that a feed's sheets have: of itineraries, of the stops that one reaches, of travel
//! times, of lists of stops, and of what a feed has. The files are read by others.
#![tactic(auto)]

mod found;
mod names;
mod reached;
mod texts;
mod timed;

pub use found::{feed_text, found_text, listed_by_ids};
pub use reached::reach_text;
pub use texts::{asked_by, line, stops_text, told_text};
pub use timed::times_text;
