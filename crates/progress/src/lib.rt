//! Who hears how far a long work is.
#![tactic(auto)]

mod hearing;

pub use hearing::{Done, Progress, Silent};
