//! What options of the command line say: numbers, a part, a format, files, stops that are searched for, and questions.
#![tactic(auto)]

mod asked_minutes;
mod asked_part;
mod asked_workers;
mod audited;
mod format;
mod merged;
mod minutes;
mod question;
mod stop_search;
mod within;
mod word_fault;
mod workers;

pub use asked_minutes::minutes_of;
pub use asked_part::{misnamed_part, part_of};
pub use asked_workers::workers_of;
pub use audited::{Audited, audited_of};
pub use format::{Format, Style, plain_style_of, style_of};
pub use merged::parts_of;
pub use minutes::Minutes;
pub use question::asked_of;
pub use stop_search::{StopSearch, stops_of};
pub use within::names_until;
pub use word_fault::WordFault;
pub use workers::Workers;
