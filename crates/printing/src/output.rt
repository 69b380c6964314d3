//! The two streams of a program.

use std::io::Write;
use streams::Stream;

/// Standard output and standard error.
#[derive(Drop)]
pub struct Streams<O: Write + Drop, E: Write + Drop> {
    pub out: Stream<O>,
    pub err: Stream<E>,
}
