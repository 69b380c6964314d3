//! The commands that build the trees which the file of a store lacks, also while questions are replied to line by line.
#![tactic(auto)]

mod built;
mod opening;
mod served;

pub use built::{Building, build};
pub use served::{Served, serve};
