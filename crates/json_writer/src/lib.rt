//! JSON, written from its first character to its last.
#![tactic(auto)]

mod writer;

pub use writer::JsonWriter;
