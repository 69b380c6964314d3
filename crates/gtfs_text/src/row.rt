//! A row of a sheet, and its fields one by one.

ghost use Rattle.std.specs.Prelude.{◌≡◌, ◌<◌, ◌≤◌, ◌+◌, ◌==◌, ◌≢◌, true, [], ◌∷◌, ◌++◌, length, map, take, drop, get_or, MatchOption, IfOk, OnOk, IfSome, IsTrue};
ghost use Rattle.std.specs.List.{list_all, position_from, position_or_len};
ghost use Rattle.std.specs.Str.{bytes_eq};
ghost use Rattle.gtfs_text.specs.Commas.{fields_from};
ghost use Rattle.gtfs_text.specs.Lines.{is_comma, line_at};
ghost use Rattle.gtfs_text.specs.Rows.{fields_in, kept_table};
ghost use Rattle.gtfs_text.specs.Sheets.{is_text};

use crate::comma_bits::commas_from;
use crate::line_fields::add_marked;
use crate::lines::Place;
use crate::packed::split_field;
use crate::packed_records::PackedRecords;
use crate::spaces::without_spaces;
use std::alloc::{AllocError, Global};
use std::simd::prelude::*;
use std::str;

/// A row, or what is left of it.
#[derive(Clone, Copy)]
pub(crate) enum Row<'a> {
    /// A line without quotes, as it stands in the file.
    Line(&'a [u8]),
    /// A packed record.
    Packed(&'a [u8]),
}

// The text of a file from a place on.
fn text_from(file: &[u8], start: u32) -> &[u8]
    ensures { result.now ≡ drop start file.now }
{
    file.split_at(file.len().min(start as usize)).1
}

// The line at a place of a file.
fn text_at(file: &[u8], place: Place) -> &[u8]
    ensures { result.now ≡ line_at file.now place }
{
    let text = text_from(file, place.start);
    text.split_at(text.len().min(place.size as usize)).0
}

/// The row of a number: one of the lines of a file, or of the packed records after them. One without fields if there is no such row.
pub(crate) fn row_at<'a>(
    file: &'a [u8],
    lines: &[Place],
    packed: &'a PackedRecords,
    number: usize,
) -> Row<'a>
    ensures { fields_in result ≡ get_or (kept_table file.now lines.now packed.now) number [] }
{
    if number < lines.len() {
        return Row::Line(text_at(file, lines[number]));
    }
    Row::Packed(packed.get(number - lines.len()))
}

// How many of the eight bytes of a line from `at` on come before the first comma among them: eight if none of them is one.
fn bytes_before_comma(line: &[u8], at: usize) -> usize
    requires { at + 8 ≤ length line.now }
    ensures { result ≡ position_or_len is_comma (take 8 (drop at line.now)) }
{
    let commas = u8x8::from_slice(&line[at..])
        .simd_eq(u8x8::splat(b','))
        .to_bitmask();
    if commas == 0 {
        8
    } else {
        commas.trailing_zeros() as usize
    }
}

// Where the first comma of a line is, or else its end.
fn field_end(line: &[u8]) -> usize
    ensures { result ≡ position_or_len is_comma line.now }
{
    let mut at = 0;
    'eights: while line.len() - at >= 8 {
        let before = bytes_before_comma(line, at);
        at += before;
        if before < 8 {
            return at;
        }
    }
    'bytes: while at < line.len() && line[at] != b',' {
        at += 1;
    }
    at
}

// The first field of a row, without the spaces round it, and the fields after it. None if it has no field.
#[inline(always)]
fn split_first(row: Row<'_>) -> Option<(&[u8], Row<'_>)>
    ensures { MatchOption result (fields_in row.entry ≡ []) (λ parts. fields_in row.entry ≡ parts.0.now ∷ fields_in parts.1) }
{
    match row {
        Row::Line(line) => {
            let (field, rest) = line.split_at(field_end(line));
            let after = match rest.split_first() {
                Some((_, after)) => Row::Line(after),
                None => Row::Packed(b""),
            };
            Some((without_spaces(field), after))
        }
        Row::Packed(packed) => {
            if packed.is_empty() {
                return None;
            }
            let (field, after) = split_field(packed);
            Some((field, Row::Packed(after)))
        }
    }
}

/// The field in a column of a row; nothing if the row doesn't reach the column.
pub(crate) fn field_at(row: Row<'_>, column: usize) -> &[u8]
    ensures { result.now ≡ get_or (fields_in row.entry) column [] }
{
    let mut rest = row;
    let mut before = column;
    'fields: while let Some((field, after)) = split_first(rest) {
        if before == 0 {
            return field;
        }
        before -= 1;
        rest = after;
    }
    b""
}

// Adds the fields of a row of text to those that `fields` holds.
fn add_fields<'a>(row: Row<'a>, fields: &mut Vec<&'a str>) -> Result<(), AllocError>
    requires { is_text (fields_in row) ≡ true }
    ensures { OnOk result (map (λ field. field.now) fields.new.items
        ≡ map (λ field. field.now) fields.old.items ++ fields_in row.entry) }
{
    let mut rest = row;
    'fields: while let Some((field, after)) = split_first(rest) {
        // The row is text, and so is each field of it.
        fields.push(unsafe { str::from_utf8_unchecked(field) })?;
        rest = after;
    }
    Ok(())
}

// Adds the fields of a line of text to those that `fields` holds. The line is as much of a text as `size` says.
fn add_line<'a>(text: &'a [u8], size: usize, fields: &mut Vec<&'a str>) -> Result<(), AllocError>
    requires within { size ≤ length text.now }
    requires text { is_text (fields_from (take size text.now) 0) ≡ true }
    ensures { OnOk result (map (λ field. field.now) fields.new.items
        ≡ map (λ field. field.now) fields.old.items ++ fields_from (take size text.now) 0) }
{
    let line = text.split_at(size).0;
    let mut next = 0;
    let mut at = 0;
    'chunks: while at < size && text.len() - at >= 64 {
        next = add_marked(line, next, at, commas_from(text, size, at), fields)?;
        at += 64;
    }
    let rest = line.split_at(next).1;
    if at < size {
        return add_fields(Row::Line(rest), fields);
    }
    // No comma is left, so that the rest is the last field. It is text, as the line is.
    fields.push(unsafe { str::from_utf8_unchecked(without_spaces(rest)) })?;
    Ok(())
}

/// The fields of the row of a number, which is text, in place of what `fields` held. The row is one of the lines of a file, or of the
/// packed records after them.
pub(crate) fn put_fields<'a>(
    file: &'a [u8],
    lines: &[Place],
    packed: &'a PackedRecords,
    number: usize,
    fields: &mut Vec<&'a str>,
) -> Result<(), AllocError>
    requires { is_text (get_or (kept_table file.now lines.now packed.now) number []) ≡ true }
    ensures { OnOk result (map (λ field. field.now) fields.new.items
        ≡ get_or (kept_table file.now lines.now packed.now) number []) }
{
    fields.clear();
    if number < lines.len() {
        let text = text_from(file, lines[number].start);
        let size = text.len().min(lines[number].size as usize);
        return add_line(text, size, fields);
    }
    add_fields(row_at(file, lines, packed, number), fields)
}

/// The number of fields of a row of text.
pub(crate) fn field_count(alloc: Global, row: Row<'_>) -> Result<usize, AllocError>
    requires { is_text (fields_in row) ≡ true }
    ensures { IfOk result (λ count. count ≡ length (fields_in row.entry)) }
{
    let mut fields = Vec::new(alloc);
    add_fields(row, &mut fields)?;
    Ok(fields.len())
}

/// The first field of a row of this many fields that is this text, by its column.
pub(crate) fn position_of(row: Row<'_>, columns: usize, text: &str) -> Option<usize>
    requires { columns ≡ length (fields_in row) }
    ensures value { result ≡ position_from (λ field. bytes_eq field text.now) 0 (fields_in row.entry) }
    ensures within { IfSome result (λ column. column < length (fields_in row.entry)) }
{
    let mut rest = row;
    for column in 0..columns {
        let Some((field, after)) = split_first(rest) else {
            return None;
        };
        if field == text.as_bytes() {
            return Some(column);
        }
        rest = after;
    }
    None
}

// Whether a line begins with a byte that neither ends its first field nor may go from its front.
fn begins_filled(line: &[u8]) -> bool
    ensures { IsTrue result → (0 < length line.now) × (get_or line.now 0 0 ≢ 44) × (get_or line.now 0 0 ≢ 32) }
{
    !line.is_empty() && line[0] != b',' && line[0] != b' '
}

/// Whether each of the first fields of a row is empty: as many as there are columns.
pub(crate) fn is_empty_in(row: Row<'_>, columns: usize) -> bool
    ensures { result ≡ list_all (λ field. length field == 0) (take columns (fields_in row.entry)) }
{
    if let Row::Line(line) = row
        && columns > 0
        && begins_filled(line)
    {
        return false;
    }
    let mut rest = row;
    'columns: for _ in 0..columns {
        let Some((field, after)) = split_first(rest) else {
            return true;
        };
        if !field.is_empty() {
            return false;
        }
        rest = after;
    }
    true
}
