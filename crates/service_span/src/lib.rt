//! Days of service: the first and the last one of a feed, and how many trips run on a day.
#![tactic(auto)]

mod idle;
pub mod laws;
mod looked;
mod scan;
mod span;
mod trips;

pub use idle::{Idle, idle_of};
pub use span::{Span, span_of};
pub use trips::{DayTrips, trips_by_day};
