//! Which faults each file of a feed has: all of them, not the first only.
#![tactic(auto)]

mod calendars;
mod calls;
mod links;
mod list;
mod stops;
mod trips;

pub use calendars::{list_calendar, list_calendar_dates};
pub use calls::list_calls;
pub use links::{list_frequencies, list_transfers};
pub use list::{FAULT_LIMIT, FaultList};
pub use stops::list_stops;
pub use trips::list_trips;
