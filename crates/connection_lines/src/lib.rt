//! Connections between two places as lines.
#![tactic(auto)]

mod connections;

pub use connections::{Connection, Connections};
