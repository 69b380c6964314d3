//! How an input goes on to the end of its line.

ghost use Rattle.std.specs.Prelude.{◌≡◌, ◌≢◌, ◌==◌, ◌≤◌, ◌++◌, length, take, IfOk, vec_len, vec_capacity};
ghost use Rattle.std.specs.List.{position_or_len};
ghost use Rattle.question_lines.specs.Reading.{GoesOn};

use std::io;
use std::io::{BufRead, ErrorKind};

/// How many bytes of a line are kept: all of the longest question, its carriage return, and one more, by which a line is seen to be too
/// long.
pub(crate) const KEPT: usize = 65_538;

/// How far an input has come.
#[derive(Clone, Copy)]
pub(crate) enum Part {
    /// The line goes on.
    More,
    /// The line's end was read.
    Line,
    /// The input is at its end.
    Rest,
}

// How many bytes stand before the first line feed, or how many there are.
fn line_len(bytes: &[u8]) -> usize
    ensures len { result ≡ position_or_len (λ b. b == 10) bytes.now }
    ensures bound { result ≤ length bytes.now }
{
    match bytes.iter().position(|byte| *byte == b'\n') {
        Some(len) => len,
        None => bytes.len(),
    }
}

// Keeps more bytes of a line, as far as there is room for them.
fn keep(kept: &mut Vec<u8>, bytes: &[u8]) -> io::Result<()>
    requires few { vec_len kept.old ≤ KEPT }
    ensures items { IfOk result (λ _. kept.new.items ≡ take KEPT (kept.old.items ++ bytes.now)) }
    ensures capacity { vec_capacity kept.old ≤ vec_capacity kept.new }
{
    let room = (KEPT - kept.len()).min(bytes.len());
    kept.extend_from_slice(&bytes[..room])?;
    Ok(())
}

/// Reads what is there of the line.
pub(crate) fn read_part<R: BufRead>(input: &mut R, kept: &mut Vec<u8>) -> io::Result<Part>
    requires few { vec_len kept.old ≤ KEPT }
    ensures part { IfOk result (GoesOn (R.remaining input.old) (R.remaining input.new) kept.old.items kept.new.items) }
    ensures capacity { vec_capacity kept.old ≤ vec_capacity kept.new }
{
    let available = match input.fill_buf() {
        Ok(available) => available,
        Err(error) => {
            return if error.kind() == ErrorKind::Interrupted {
                Ok(Part::More)
            } else {
                Err(error)
            };
        }
    };
    let len = line_len(available);
    keep(kept, &available[..len])?;
    let (part, read) = if len < available.len() {
        (Part::Line, len + 1)
    } else if len == 0 {
        (Part::Rest, 0)
    } else {
        (Part::More, len)
    };
    input.consume(read);
    Ok(part)
}
