//! The pattern tree of Transfer Patterns (Bast and others, "Fast Routing in Very Large Public Transportation Networks
//! Using Transfer Patterns", ESA 2010), under any allocator: for one source, the patterns of rides and the stops at
//! which each ends. Beginnings that patterns share are kept once.
#![tactic(auto)]

mod arena;
mod copying;
mod fault;
mod finished;
mod growth;
pub mod laws;
mod measure;
mod node;
mod search;
mod siblings;
mod tree;
mod walking;

pub use arena::Arena;
pub use fault::TreeFault;
pub use finished::Finished;
pub use node::Node;
pub use tree::{MOST_ENDS, MOST_NODES, PatternTree};
pub use walking::Visitor;
