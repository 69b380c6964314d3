//! The words that a program is started with: the options that all programs have, the values of these, and what is said of words at fault.
#![tactic(auto)]

mod options;
mod refusal;
mod settings;
mod start;
mod values;
mod word;

pub use options::common;
pub use refusal::refuse;
pub use settings::Settings;
pub use start::{given_words, out_of_memory, show, texts, unread, unwritten};
pub use values::{byte_of, flag_of, number_of, settings_of, text_of};
pub use word::{Word, with_words};
