//! Workers that build trees in many threads: each claims sources of a shared ledger, builds their trees with a scratch and an arena of its
//! own, and hands them in.
#![tactic(auto)]

mod builder;
mod gate;
mod halt;
mod worker;
mod workshop;

pub use gate::{Free, Gate};
pub use halt::Halt;
pub use worker::work;
pub use workshop::Workshop;
