//! The patterns of a source, packed, by the stops at which they end: a pattern tree as it is asked (Bast and others, "Fast Routing in
//! Very Large Public Transportation Networks Using Transfer Patterns", ESA 2010).
#![tactic(auto)]

mod packing;
mod patterns;
mod sorting;

pub use packing::{Beginning, Path, Pattern, rides_of};
pub use patterns::{Ending, Patterns};
