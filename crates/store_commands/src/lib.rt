//! The commands over a store: what is done over its file, which is opened in one place, and what is printed of it.
#![tactic(auto)]

mod merging_parts;
mod replies;
mod replying;
mod served;
mod stores;
mod storing;

pub use replying::{Site, run_serve};
pub use stores::{OverStores, run_task};
