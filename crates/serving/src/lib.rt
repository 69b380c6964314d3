//! Questions that are asked line by line, and the replies to them, while trees are built.
#![tactic(auto)]

mod look;
mod printing;
mod replying;
mod serving;
mod telling;
mod windows;

pub use serving::{End, serve_lines};
pub use telling::{Lines, ReplyTeller};
