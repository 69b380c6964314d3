//! Builds the trees that a store lacks, in many threads, while readers ask, and reports what came of it.
#![tactic(auto)]

mod meanwhile;
mod missing;
mod outcome;
mod precomputing;

pub use meanwhile::{Meanwhile, precompute_while};
pub use missing::count_in;
pub use outcome::Outcome;
pub use precomputing::{precompute, precompute_telling, precompute_until};
pub use tree_crew::{Audience, Crew};
pub use tree_workers::{Free, Gate, Halt};
