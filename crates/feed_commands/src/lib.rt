//! The commands that need no store: what they find in a feed or at its timetable, and how it is printed.
#![tactic(auto)]

mod checking;
mod found;
mod searching;
mod tabling;

pub use checking::{check, stops};
pub use found::{Found, finish_found, found_answer, found_connections, found_report};
pub use searching::{reached, ridden, scanned};
pub use tabling::{Tabling, run_matrix};
