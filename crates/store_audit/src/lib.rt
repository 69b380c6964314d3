//! Audits all trees that the file of a store has, in many threads, in the order in which they were stored.
#![tactic(auto)]

mod batch;
mod crew;
mod due;
mod store;
mod waiting;

pub use crew::Crew;
pub use due::TreeAudit;
pub use store::audit_store;
