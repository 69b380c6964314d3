//! The trees of several stores that are only read, given one at a time, stop by stop.
#![tactic(auto)]

mod adding;
mod comparing;
mod entry;
mod fault;
mod listing;
mod noting;
mod reading;
mod shelf;

pub use fault::PartFault;
pub use shelf::PartShelf;
