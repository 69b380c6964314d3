//! The ids that a file lists, and the lines that they stand on.

ghost use Rattle.std.specs.Prelude.{◌≡◌, ◌==◌, not, Contains, IfErr, IfNone, IfOk, IfSome, MatchBool, filter, length, map};
ghost use Rattle.std.specs.Str.{IsUtf8};
ghost use Rattle.std.specs.Str.Lines.{lines};
ghost use Rattle.csv.specs.Reading.{strip_bom};
ghost use Rattle.stop_lists.specs.Lists.{Explains, IsLineOf, ids_in};

use crate::fault::ListFault;
use std::alloc::{AllocError, Global};
use std::str;

// U+FEFF in UTF-8.
const MARK: &[u8] = b"\xEF\xBB\xBF";

// The bytes after a byte order mark at the front.
fn after_mark(bytes: &[u8]) -> &[u8]
    ensures { result.now ≡ strip_bom bytes.now }
{
    if bytes.starts_with(MARK) {
        let (_, after) = bytes.split_at(MARK.len());
        return after;
    }
    bytes
}

// The lines of a text.
fn lines_of(alloc: Global, text: &str) -> Result<Vec<&str>, AllocError>
    ensures { IfOk result (λ all. map (λ line. line.now) all.items ≡ lines text.now) }
{
    text.lines().collect(alloc)
}

// Leaves empty lines out.
fn drop_empty(all: &mut Vec<&str>)
    ensures { all.new.items ≡ filter (λ line. not (length line.now == 0)) all.old.items }
{
    all.retain(|line| !line.is_empty());
}

/// Whether bytes are UTF-8 after a byte order mark at the front.
pub(crate) fn is_text(bytes: &[u8]) -> bool
    ensures { MatchBool result (IsUtf8 (strip_bom bytes.now)) (¬ IsUtf8 (strip_bom bytes.now)) }
{
    match str::from_utf8(after_mark(bytes)) {
        Ok(_) => true,
        Err(_) => false,
    }
}

/// The ids that a file of these bytes lists, in their order, each as often as it stands there. It fails if the bytes aren't UTF-8, as
/// `read_list` sees that they are, or if memory runs out.
pub fn ids_of(alloc: Global, bytes: &[u8]) -> Result<Vec<&str>, ListFault>
    ensures ids { IfOk result (λ ids. map (λ id. id.now) ids.items ≡ ids_in bytes.now) }
    ensures fault { IfErr result (Explains bytes.now) }
{
    let Ok(text) = str::from_utf8(after_mark(bytes)) else {
        return Err(ListFault::BadText);
    };
    let Ok(mut ids) = lines_of(alloc, text) else {
        return Err(ListFault::Memory);
    };
    drop_empty(&mut ids);
    Ok(ids)
}

/// The number of the first line that is the id, in a file of these bytes; empty lines count too. None if the file doesn't list the id, or
/// isn't UTF-8. It takes no memory.
pub fn line_of(bytes: &[u8], id: &str) -> Option<usize>
    ensures line { IfSome result (IsLineOf bytes.now id.now) }
    ensures none { IfNone result (IsUtf8 (strip_bom bytes.now) → ¬ Contains (ids_in bytes.now) id.now) }
{
    let Ok(text) = str::from_utf8(after_mark(bytes)) else {
        return None;
    };
    let before = text.lines().position(|line| line == id)?;
    Some(before + 1)
}
