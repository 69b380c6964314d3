//! The program up to where a store is needed: from what its words name and its system to both of its streams and its status; or to the
//! command over a store that is left to do.
#![tactic(auto)]

mod idling;
mod program;
mod running;
mod searching;
mod so_far;

pub use program::run_read;
pub use so_far::SoFar;
