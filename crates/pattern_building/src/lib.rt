//! The pattern tree of a source as Transfer Patterns want it (Bast and others, "Fast Routing in Very Large Public
//! Transportation Networks Using Transfer Patterns", ESA 2010). It has the patterns of the best journeys, and no others, found by
//! the rounds at each moment that is worth leaving at.
#![tactic(auto)]

mod building;
mod finishing;
mod growing;
mod latest;

pub use building::build;
pub use finishing::finish;
