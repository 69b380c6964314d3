//! The file that keeps finished trees: sections after gates, put so that a crash at any moment leaves the list of trees
//! before a put or the list after it.
#![tactic(auto)]

mod body;
mod calls;
mod fault;
mod form;
pub mod going_laws;
mod header;
pub mod laws;
mod put;
pub mod reading_laws;
mod receipt;
mod step;
mod stop_set;
mod store;
mod version;

pub use fault::PutFault;
pub use form::Form;
pub use header::{NAME, OPEN, begin, rest_of_header};
pub use receipt::Receipt;
pub use step::Step;
pub use stop_set::StopSet;
pub use store::SectionStore;
pub use version::Version;
