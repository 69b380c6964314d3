//! The files of a feed, and the names of what is in its folder.
#![tactic(auto)]

mod feed;

pub use feed::{FeedReader, list_folder, open_feed};
