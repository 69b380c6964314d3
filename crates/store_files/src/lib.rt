//! The files of stores: where they lie, and how one is opened.
#![tactic(auto)]

mod disks;
mod opening;

pub use disks::Disks;
pub use opening::{Access, Ready, StoreFile, open_ready, say_new};
