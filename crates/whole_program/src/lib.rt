//! The whole program: from its words, its system and the files of its stores to both of its streams, its status and the disk of its store.
#![tactic(auto)]

mod program;
mod stored;

pub use program::run_words;
