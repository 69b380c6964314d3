//! The lines of a file that have no quotes. Most files have no others, and these need no reader of CSV.

ghost use Rattle.std.specs.Prelude.{◌≡◌, ◌≤◌, ◌↔◌, true, [], length, take, IfOk, IfSome, IsTrue, IsUtf8};
ghost use Rattle.std.specs.List.{list_all};
ghost use Rattle.csv.specs.Reading.{strip_bom};
ghost use Rattle.gtfs_text.specs.Lines.{AreLines, EndsWith, IsFrontLine, is_plain, without_line_feed};

use crate::commas::COMMA_LIMIT;
use memchr::memchr3;
use std::alloc::AllocError;
use std::str;

/// Where a line stands in its file: the number of its first byte, and how many bytes it has.
#[derive(Clone, Copy)]
pub(crate) struct Place {
    pub(crate) start: u32,
    pub(crate) size: u32,
}

// How many bytes there are before the first that quotes or ends a line.
fn plain_length(bytes: &[u8]) -> usize
    ensures within { result ≤ length bytes.now }
    ensures plain { list_all is_plain (take result bytes.now) ≡ true }
{
    memchr3(b'"', b'\r', b'\n', bytes).unwrap_or(bytes.len())
}

// The text without a line feed at its front.
fn without_line_feed(text: &[u8]) -> &[u8]
    ensures { result.now ≡ without_line_feed text.now }
{
    match text.first() {
        Some(b'\n') => text.split_at(1).1,
        _ => text,
    }
}

// The front line of a text, and the text from its line feed on. None if the line has a quote or a carriage return of its own, or if it is
// so long that its commas would have to be counted.
fn front_line(text: &[u8]) -> Option<(&[u8], &[u8])>
    ensures plain { IfSome result (λ parts. list_all is_plain parts.0.now ≡ true) }
    ensures front { IfSome result (λ parts. IsFrontLine text.now parts.0.now parts.1.now) }
{
    let near = text.split_at(text.len().min(COMMA_LIMIT)).0;
    let (line, after) = text.split_at(plain_length(near));
    match (after.first(), after.get(1)) {
        (None, _) | (Some(b'\n'), _) => Some((line, after)),
        (Some(b'\r'), Some(b'\n')) => Some((line, after.split_at(1).1)),
        _ => None,
    }
}

// A place for a line, unless it stands beyond the first 4 GiB of its file.
fn place_for(start: usize, size: usize) -> Option<Place>
    ensures start { IfSome result (λ place. place.start ≡ start) }
    ensures size { IfSome result (λ place. place.size ≡ size) }
{
    match (u32::try_from(start), u32::try_from(size)) {
        (Ok(start), Ok(size)) => Some(Place { start, size }),
        _ => None,
    }
}

// Whether a line is UTF-8. The line isn't looked through if it is from a text that is.
fn is_text_line(line: &[u8], is_text: bool) -> bool
    requires { IsTrue is_text → IsUtf8 line.now }
    ensures { IsTrue result ↔ IsUtf8 line.now }
{
    is_text || str::from_utf8(line).is_ok()
}

/// Adds the places of the lines that have a record, from the front of a text up to the first line that needs a reader of CSV. The file ends
/// with that text. Gives the text that is left, with the line feed before it.
pub(crate) fn add_plain_lines<'a>(
    file: &'a [u8],
    text: &'a [u8],
    lines: &mut Vec<Place>,
) -> Result<&'a [u8], AllocError>
    requires no_mark { strip_bom text.now ≡ text.now }
    requires end { EndsWith file.now text.now }
    requires empty { lines.old.items ≡ [] }
    ensures { IfOk result (λ rest. AreLines text.now file.now lines.new.items rest.now) }
{
    // Most texts are UTF-8 as a whole, and then no line is tested by itself.
    let is_text = str::from_utf8(text).is_ok();
    let mut rest = text;
    'lines: while !rest.is_empty() {
        let here = without_line_feed(rest);
        let Some((line, after)) = front_line(here) else {
            return Ok(rest);
        };
        if !line.is_empty() {
            let Some(place) = place_for(file.len() - here.len(), line.len()) else {
                return Ok(rest);
            };
            if !is_text_line(line, is_text) {
                return Ok(rest);
            }
            lines.push(place)?;
        }
        rest = after;
    }
    Ok(rest)
}
