//! Looks at a board of the sample feed.

mod beside;
mod looks;
mod setting;
