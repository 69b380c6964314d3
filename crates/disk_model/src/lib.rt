//! A disk as a store sees it: one file, what reads of it give, and what a crash at each moment may leave.
#![tactic(auto)]

mod calls;
mod disk;
mod fault;
mod file;
mod image;
pub mod laws;
mod memory;
mod plan;

pub use calls::{cut_and_sync, read_up_to, write_and_sync};
pub use disk::Disk;
pub use fault::{DiskFault, FileFault, ReadFault};
pub use file::FileDisk;
pub use memory::MemDisk;
