//! Timetables: which trips run on the covered days, with the walks and changes between them; and what a ride, a journey and its
//! numbers are.
#![tactic(auto)]

mod canonical;
mod copying;
mod direct;
pub mod laws;
mod leg_readers;
mod parts;
mod rides;
mod sameness;
mod table;
mod width;

pub use direct::plain_direct;
pub use parts::{Call, LATEST_MOMENT, Leg, MOST_INSTANCES, MOST_STOPS, Numbers, StopId, Walk};
pub use rides::Rides;
pub use table::{Instance, Timetable, Walks};
pub use width::Width;
