//! Ids as a program shows them: on one line, and so that two different ids never look alike.
#![tactic(auto)]

mod laws;
mod shown;

pub use laws::ids_look_different;
pub use shown::Shown;
