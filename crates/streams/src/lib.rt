//! The streams that a program prints on, each with whether it has refused a write.
#![tactic(auto)]

mod stream;

pub use answer_lines::PrintFault;
pub use stream::{Refused, Stream};
