//! The timetable of a feed over the covered days, and the ids of its stops, stations and trips.
#![tactic(auto)]

mod assembly;
mod before;
mod before_counts;
mod departures;
mod instances;
pub mod laws;
mod names;
mod running;
mod transfers;
mod walks;

pub use assembly::{MOST_CALLS, MOST_WALKS, assemble};
pub use departures::repeats_of;
pub use names::names_of;
