//! The command that takes over the trees of a store of the version before.
#![tactic(auto)]

mod taken;

pub use taken::{of_put, take_over};
