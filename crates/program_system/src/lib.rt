//! The system that the program runs on, and how a run ends.
#![tactic(auto)]

mod ended;
mod system;

pub use ended::Ended;
pub use system::System;
