//! The ledger that several threads share: workers claim sources and hand trees in, and one that stores takes them, each by its seat.
//! One lock orders all calls; a tree that finds the queue full waits for room, and who takes waits for a tree.
#![tactic(auto)]

mod basis;
mod desk;
mod seat;
mod shared;

pub use basis::Basis;
pub use seat::Seat;
pub use shared::{Shared, Sitting};
