//! The grammar of the program's command line: its commands, the words that each takes, and their help.
#![tactic(auto)]

mod commands;
mod grammar;
mod program;
mod texts;

pub use program::matches_of;
pub use texts::FAULT_TABLE;
