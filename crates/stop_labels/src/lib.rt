//! Labels of stops: when one is at each stop, and by which rides.
#![tactic(auto)]

mod label;
mod labels;
mod moment;
mod path;
mod row;

pub use label::Label;
pub use path::Path;
pub use row::{Row, is_sooner};
