//! Packed records: one text each, with every field's length and then its bytes.
//!
//! Most fields are short, so a length is one byte if it is below 255. Packed records then need little more memory
//! than their text, and no allocation for a record.

ghost use Rattle.std.specs.Prelude.{◌≡◌, ◌<◌, ◌≤◌, ◌++◌, ◌^◌, true, length, map, OnOk};
ghost use Rattle.csv.specs.Records.{fields_of};
ghost use Rattle.gtfs_text.specs.Packed.{long_length, first_field, next_fields, packed_field, unpacked};
ghost use Rattle.gtfs_text.specs.Sheets.{is_text, without_spaces};

use crate::spaces::without_spaces;
use csv::StringRecord;
use std::alloc::AllocError;

/// The byte that a length of nine bytes begins with; a smaller one is a length itself.
const LONG: u8 = 255;

// The length of nine bytes at the front of a packed record.
#[cold]
fn long_length(packed: &[u8]) -> usize
    requires { 9 ≤ length packed.now }
    ensures { result ≡ long_length packed.now }
{
    usize::from_le_bytes([
        packed[1], packed[2], packed[3], packed[4], packed[5], packed[6], packed[7], packed[8],
    ])
}

/// The first field of a packed record, and the fields after it.
pub(crate) fn split_field(packed: &[u8]) -> (&[u8], &[u8])
    requires { 0 < length packed.now }
    ensures field { result.0.now ≡ first_field packed.now }
    ensures rest { result.1.now ≡ next_fields packed.now }
{
    let (size, rest) = if packed[0] == LONG && 9 <= packed.len() {
        (long_length(packed), packed.split_at(9).1)
    } else {
        (packed[0] as usize, packed.split_at(1).1)
    };
    rest.split_at(size.min(rest.len()))
}

// Adds a field to a packed record.
fn push_field(packed: &mut Vec<u8>, field: &[u8]) -> Result<(), AllocError>
    ensures field { OnOk result (packed.new.items ≡ packed.old.items ++ packed_field field.now) }
    ensures size { length field.now < 2 ^ 64 }
{
    let size = field.len();
    if size < LONG as usize {
        packed.push(size as u8)?;
    } else {
        packed.push(LONG)?;
        packed.extend_from_slice(&size.to_le_bytes())?;
    }
    packed.extend_from_slice(field)
}

/// Packs the fields of a row, without the spaces round them, in place of what was packed.
pub(crate) fn pack(row: &StringRecord, packed: &mut Vec<u8>) -> Result<(), AllocError>
    ensures fields { OnOk result (unpacked packed.new.items ≡ map without_spaces (fields_of row.now)) }
    ensures text { OnOk result (is_text (unpacked packed.new.items) ≡ true) }
{
    packed.clear();
    for column in 0..row.len() {
        if let Some(field) = row.get(column) {
            push_field(packed, without_spaces(field.as_bytes()))?;
        }
    }
    Ok(())
}
