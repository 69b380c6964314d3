//! Why a program gives no answer: the faults that it reports, with the status, the text and the advice of each.
#![tactic(auto)]

mod advice;
mod fault;
mod migrating;
mod parting;
mod report;
mod texts;

pub use fault::Fault;
pub use migrating::{Side, StoreFault, in_migration, of_migrated};
pub use parting::{in_part, of_part};
pub use report::FaultLines;
pub use texts::file_name;
