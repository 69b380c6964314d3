//! A module for each subject.

mod calendars;
mod changes;
mod connected;
mod counts;
mod days;
mod disks;
mod feeds;
mod limits;
mod listed;
mod texts;
mod trees;
mod values;
mod walks;
mod ways;
