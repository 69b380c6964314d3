//! Puts the trees of several stores together in one store, in the order of the stops.
#![tactic(auto)]

mod fault;
pub mod laws;
mod merging;
mod shelf;

pub use fault::{MergeFault, ShelfFault};
pub use merging::merge;
pub use shelf::Shelf;
