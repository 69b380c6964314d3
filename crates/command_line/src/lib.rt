//! The command line of the journey planner's program: from its words to what it is asked to do, with days and times read.
#![tactic(auto)]

mod feed_check;
mod given;
mod job;
mod migrated;
mod unread;
mod words;

pub use feed_check::FeedCheck;
pub use given::{Given, GivenPlaces, given_by};
pub use job::{Command, Job, Plan, Search, Task};
pub use unread::{Unread, Word};
pub use words::read_words;
