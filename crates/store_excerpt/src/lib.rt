//! An open store with the trees of only some stops: as much of a store as a question takes that leaves from these stops.
#![tactic(auto)]

mod board;
mod excerpt;
pub mod laws;

pub use board::Board;
pub use excerpt::Excerpt;
