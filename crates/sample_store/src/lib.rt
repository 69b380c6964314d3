//! For tests only: the trees of the sample feed, and files of them, as a store writes them and only by the layout.
#![tactic(auto)]

mod layout;
mod sample;

pub use layout::{A, B, C, D, E, TEXTS, file_of, header_of, put_section};
pub use sample::{Sample, bytes_of, is_first, new_file, new_store, old_file, tree_of};
