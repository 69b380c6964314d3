//! The fields of a line without quotes, between the commas that are found 64 bytes at a time.

ghost use Rattle.std.specs.Prelude.{◌≡◌, ◌+◌, ◌≤◌, ◌++◌, true, length, map, IfOk};
ghost use Rattle.gtfs_text.specs.Commas.{HasNoComma, MarksCommas, fields_from};
ghost use Rattle.gtfs_text.specs.Sheets.{is_text};

use crate::comma_bits::{lowest, without};
use crate::spaces::without_spaces;
use std::alloc::AllocError;
use std::str;

/// Adds the fields of a line that end at the marked commas. The first of them begins at `start`, and the marks are those of the 64 bytes
/// from `at` on. Gives where the next field begins.
pub(crate) fn add_marked<'a>(
    line: &'a [u8],
    start: usize,
    at: usize,
    marks: u64,
    fields: &mut Vec<&'a str>,
) -> Result<usize, AllocError>
    requires order { (start ≤ at) × (at ≤ length line.now) }
    requires none { HasNoComma line.now start at }
    requires marks { MarksCommas line.now at 0 marks }
    requires text { is_text (fields_from line.now start) ≡ true }
    ensures fields { IfOk result (λ next. map (λ field. field.now) fields.new.items ++ fields_from line.now next
        ≡ map (λ field. field.now) fields.old.items ++ fields_from line.now start) }
    ensures text { IfOk result (λ next. is_text (fields_from line.now next) ≡ true) }
    ensures order { IfOk result (λ next. (next ≤ at + 64) × (next ≤ length line.now)) }
    ensures none { IfOk result (λ next. HasNoComma line.now next (at + 64)) }
{
    let mut next = start;
    let mut left = marks;
    'commas: while left != 0 {
        let bit = lowest(left);
        let field = without_spaces(&line[next..at + bit]);
        // The line is text, and so is each field of it.
        fields.push(unsafe { str::from_utf8_unchecked(field) })?;
        left = without(left, bit);
        next = at + bit + 1;
    }
    Ok(next)
}
