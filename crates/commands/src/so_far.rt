//! How far a run is.

use feed_basis::Basis;
use printing::Streams;
use std::io::Write;

/// A run that has come to its end without a store, with this status; or a command over a store is left to do.
#[derive(Drop)]
pub struct SoFar<O: Write + Drop, E: Write + Drop> {
    pub status: u8,
    /// The basis over which the command of the words' plan is left to do, if it is.
    pub left: Option<Basis>,
    pub streams: Streams<O, E>,
}
