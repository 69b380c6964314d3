//! The tests of the crates below the store, by subject, and of whole feeds: trips that repeat, trips of the day before the first covered
//! day, and files that are cut short or changed. They stand together, since each crate with tests is proved once more with them and
//! linked. What can be seen of the program from outside is tested there, by `tests/`.
#![tactic(auto)]

#[cfg(test)]
mod tests;
