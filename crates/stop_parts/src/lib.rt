//! The parts into which the stops of a timetable are dealt out, so that each can be built by itself.
#![tactic(auto)]

pub mod laws;
mod part;

pub use part::Part;
