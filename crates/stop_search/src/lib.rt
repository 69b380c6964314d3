//! Stops and stations of a feed by a text: those whose id or name contains it, and those whose id or name is near it. And the stops of a
//! station.
#![tactic(auto)]

mod fold;
mod list;
mod near;
mod station;
mod stop;

pub use fold::{folded, is_part};
pub use list::{FIELDS, Listing, list_stops};
pub use near::near_stops;
pub use station::station_stops;
pub use stop::StopRow;
