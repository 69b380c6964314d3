//! The best journeys between two stops with their rides, found by the rounds: no tree of patterns is asked that was built before.
#![tactic(auto)]

mod latest;
mod patterns;
mod scanning;

pub use scanning::{journeys_of, scan_journeys};
