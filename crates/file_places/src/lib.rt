//! What a feed's files have at the places of its faults: as JSON, and as lines that are added to those of the faults.
#![tactic(auto)]

mod columns;
mod folder;
mod forms;
mod listed;
mod parts;
mod reading;
mod shown;

pub use folder::folder_hint;
pub use listed::{FaultParts, hint_at, list_json, parts_of_all};
pub use parts::{Part, PartsLine, add_of_feed};
pub use shown::text_of;
