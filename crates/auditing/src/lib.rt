//! Whether the answers from a stored tree are those of the timetable: the audit of a tree that may have come from anywhere.
//! Transfer Patterns (Bast and others, "Fast Routing in Very Large Public Transportation Networks Using Transfer Patterns", ESA 2010).
#![tactic(auto)]

mod auditing;
mod comparing;
mod lacking;
pub mod laws;

pub use auditing::{Difference, first_difference};
