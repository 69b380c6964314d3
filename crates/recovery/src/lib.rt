//! Opens the file of a store that a crash may have left: the list of trees that its bytes stand for, and the store itself.
#![tactic(auto)]

mod calls;
mod canonical;
mod found;
mod header;
mod keeper;
mod kept;
pub mod laws;
mod old;
mod opening;
mod reading;
mod recovered;
mod section;
mod sections;

pub use calls::{recover, recover_to, recover_trees_of};
pub use keeper::{Keeper, Nobody};
pub use old::read_v1;
pub use recovered::Recovered;
