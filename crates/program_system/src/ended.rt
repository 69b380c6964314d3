//! How a run of the program ends.

use printing::Streams;
use std::io::Write;

/// What a run of the program leaves: the status to end with, the disk of the store if it was opened, and both streams.
#[derive(Drop)]
pub struct Ended<D: Drop, O: Write + Drop, E: Write + Drop> {
    pub status: u8,
    pub store: Option<D>,
    pub streams: Streams<O, E>,
}
