//! What a file is before it is opened as a store, so that a program spoils no file of another one.
#![tactic(auto)]

mod kind;

pub use kind::{FileKind, file_kind, is_begun};
