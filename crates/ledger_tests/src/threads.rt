//! The ledger that threads share: the replies to seats that work in parallel.

mod meeting;
mod setting;
mod tests;
mod waiting;
mod working;
