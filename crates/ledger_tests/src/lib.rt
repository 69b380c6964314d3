//! The tests of the ledger and of the flusher over the sample feed, of the ledger that threads share, and of the board. They stand apart,
//! since a check of tests that read a feed reads all that reads one, and since some start threads.
#![tactic(auto)]

#[cfg(test)]
mod boards;
#[cfg(test)]
mod flushing;
#[cfg(test)]
mod tests;
#[cfg(test)]
mod threads;
