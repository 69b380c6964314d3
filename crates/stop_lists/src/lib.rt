//! Files that list stops: the ids in them, the lines that they stand on, and why one isn't read.
#![tactic(auto)]

mod fault;
mod ids;
mod reading;

pub use fault::{ListFault, ListFaultLines, PlaceLine};
pub use ids::{ids_of, line_of};
pub use reading::{LONGEST, read_list};
