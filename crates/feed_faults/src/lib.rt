//! Which faults a feed has: all of them, not the first only.
#![tactic(auto)]

mod feed;
pub mod laws;

pub use feed::list_faults;
pub use file_faults::{FAULT_LIMIT, FaultList};
