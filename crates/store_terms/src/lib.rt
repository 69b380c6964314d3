//! What commands over the file of a store speak of: what a store is for, why one isn't opened, and the ids of its stops.
#![tactic(auto)]

mod naming;

pub use naming::ids;
