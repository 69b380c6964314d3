//! Where one can be who leaves a stop at a moment, and how long one travels over a window of departures. RAPTOR's rounds have the earliest
//! arrival at every stop at once (Delling, Pajor, Werneck, "Round-Based Public Transit Routing", ALENEX 2012).
#![tactic(auto)]

mod gathering;
mod moments;
mod reached;
mod reaching;
mod steps;
mod travel_time;
mod travelling;

pub use reached::Reached;
pub use reaching::reach;
pub use travel_time::TravelTimes;
pub use travelling::travel_times;
