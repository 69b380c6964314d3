//! The events of a stop: the moments that are worth leaving it at.
#![tactic(auto)]

mod events;
pub mod laws;

pub use events::departures;
