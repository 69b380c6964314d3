//! Replies to questions that are asked line by line, as lines.
#![tactic(auto)]

mod reply;

pub use reply::{Refusal, Reply};
