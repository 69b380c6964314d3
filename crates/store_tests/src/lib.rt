//! The tests of a store: what every crash leaves of its file, what files are opened as, whole, cut short and changed, and how files of the
//! first version are read and migrated; and of a merge, which puts the stores of parts together. They stand apart, since a check of tests
//! that read a feed reads all that reads one.
#![tactic(auto)]

#[cfg(test)]
mod merges;
#[cfg(test)]
mod tests;
