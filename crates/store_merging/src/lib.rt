//! The command that puts the trees of several stores together in one.
#![tactic(auto)]

mod counting;
mod fault;
mod merged;
mod telling;

pub use fault::UnmergedFault;
pub use merged::merge_parts;
pub use telling::{path_of, put_together, told_of_part};
