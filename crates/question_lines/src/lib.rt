//! Questions that are asked line by line: the lines of an input, and which question each is.
#![tactic(auto)]

mod line;
mod question;
mod reading;

pub use line::Line;
