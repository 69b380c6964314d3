//! The rounds of RAPTOR (Delling, Pajor, Werneck, "Round-Based Public Transit Routing", ALENEX 2012): the least arrivals
//! after one ride, two rides and so on, the moments that are worth leaving at, and the best journeys' numbers.
#![tactic(auto)]

mod best;
mod boarding;
mod guesses;
mod layer;
mod noted;
mod plain;
mod riding;
mod scratch;
mod serving;
mod view;
mod walking;

pub use best::{points, scan};
pub use plain::plain_rounds;
pub use scratch::Scratch;
pub use stop_events::departures;
pub use stop_labels::Path;
pub use timetable::Rides;
pub use view::{RoundView, Rounds};
