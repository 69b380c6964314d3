//! The ids of a feed's stops, stations and trips: from an id to what it names, and back.
#![tactic(auto)]

mod groups;
mod ids;
mod names;

pub use groups::Groups;
pub use names::{Names, Place};
