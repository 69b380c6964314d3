//! Questions for journeys: from which place to which, when, and which connections.
#![tactic(auto)]

mod question;

pub use question::{Question, Until, Within};
