//! The bytes of a file, up to a record with too many commas.
//!
//! For each field of a record its reader takes eight bytes, and 24 for one of the header. So a record of nothing but commas would take
//! many times the memory of its file.

use std::cell::Cell;
use std::io;
use std::io::{ErrorKind, Read};

/// How many commas of one record are read, quoted ones among them, before memory is refused to it.
pub(crate) const COMMA_LIMIT: usize = 1_000_000;

// How many bytes of a record are read before its commas are counted. Each of these bytes is taken for a comma, so that a record of a usual
// length isn't looked through.
const UNCOUNTED: usize = 65_536;

/// Bytes that are read as long as commas are left.
#[derive(Drop)]
pub(crate) struct UpToCommas<'a> {
    pub(crate) bytes: &'a [u8],
    /// How many more commas are read; the caller sets it anew for each record.
    pub(crate) left: &'a Cell<usize>,
}

// How many commas there are.
fn commas_in(bytes: &[u8]) -> usize {
    bytes.iter().filter(|byte| **byte == b',').count()
}

impl Read for UpToCommas<'_> {
    ghost use Rattle.std.specs.Prelude.{Some};
    ghost use Rattle.std.specs.Io.{ReadsAtMost};
    ghost use Rattle.std.specs.Io.KnownBytes.{ReadConsumes};

    ghost remaining = { λ r. Some r.bytes.now };

    /// Reads of the bytes. `OutOfMemory` comes if no comma is left.
    fn read(&mut self, buf: &mut [u8]) -> io::Result<usize>
        ensures bound { ReadsAtMost result buf.new }
        ensures bytes { ReadConsumes (Some self.old.bytes.now) (Some self.new.bytes.now) result buf.new }
    {
        let left = self.left.get();
        if left == 0 {
            return Err(io::Error::from(ErrorKind::OutOfMemory));
        }
        let read = self.bytes.read(buf)?;
        let commas = if left > COMMA_LIMIT - UNCOUNTED {
            read
        } else {
            commas_in(&buf[..read])
        };
        self.left.set(left.saturating_sub(commas));
        Ok(read)
    }
}
