//! Why a file isn't opened as a store.
#![tactic(auto)]

mod fault;

pub use fault::RecoverFault;
