//! The places of the standard streams.

use std::fs::File;
use std::io;

// A file that holds nothing.
const NOTHING: &str = "/dev/null";

/// Takes the places of those standard streams that are closed: the system gives each file that is opened the lowest place that is free, and
/// what is meant for a stream would be written into the file in its place. As this file is opened to be read, it refuses what is written.
pub fn stream_places(rt: &HostRuntime) -> [io::Result<File>; 3] {
    [
        File::open(rt, NOTHING),
        File::open(rt, NOTHING),
        File::open(rt, NOTHING),
    ]
}
