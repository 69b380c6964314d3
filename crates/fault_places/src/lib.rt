//! What the words or a feed's folder have at the place of a fault, and what may be meant by an unknown id: as JSON, and as lines that are
//! added to those of the fault.
#![tactic(auto)]

mod fault;
mod hints;
mod meant;
mod parts;

pub use fault::{fault_json, named_fault_json, question_fault_json};
pub use hints::hint;
