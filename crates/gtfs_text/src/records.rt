//! The records of a file, one by one.

ghost use Rattle.std.specs.Prelude.{◌≡◌, ◌<◌, ◌≤◌, ◌+◌, ◌^◌, true, [], length, take, map, None, OnOk, IfOk, IfErr};
ghost use Rattle.std.specs.List.{list_all};
ghost use Rattle.csv.specs.Reading.{default_config, error_kind, records, strip_bom};
ghost use Rattle.csv.specs.Records.{fields_of};
ghost use Rattle.gtfs_text.specs.Faults.{fault_at, IsPlain};
ghost use Rattle.gtfs_text.specs.Packed.{unpacked};
ghost use Rattle.gtfs_text.specs.Reading.{ExplainsAfter, IsAtStart, records_left, text_left};
ghost use Rattle.gtfs_text.specs.Rows.{kept_table};
ghost use Rattle.gtfs_text.specs.Sheets.{records_of, bad_record, table_of, is_text, Explains};

use crate::commas::{COMMA_LIMIT, UpToCommas};
use crate::fault::SheetFault;
use crate::lines::{Place, add_plain_lines};
use crate::marks::after_marks;
use crate::packed::pack;
use crate::packed_records::PackedRecords;
use csv::{Error, ErrorKind, Reader, ReaderBuilder, StringRecord};
use std::alloc::Global;
use std::cell::Cell;

// What ended the reading of a record.
fn fault_of(error: &Error, row: usize) -> SheetFault
    requires { IsPlain (error_kind error.now) }
    ensures { result ≡ fault_at row (error_kind error.now) }
{
    match error.kind() {
        ErrorKind::Utf8 { .. } => SheetFault::BadRecord(row),
        ErrorKind::Io(_) | ErrorKind::OutOfMemory => SheetFault::Memory,
        _ => unreachable!(),
    }
}

// Adds the records that a reader gives, packed, to none. Each is read into `record`, and packed in `packed`. `before` is how many records
// of the file come before them.
fn add_records(
    reader: &mut Reader<UpToCommas<'_>>,
    left: &Cell<usize>,
    before: usize,
    record: &mut StringRecord,
    packed: &mut Vec<u8>,
    records: &mut PackedRecords,
) -> Result<(), SheetFault>
    requires start { IsAtStart reader.old }
    requires few { before + length (text_left reader.old) < 2 ^ 64 }
    requires empty { records.old ≡ [] }
    ensures records { OnOk result (map unpacked records.new ≡ table_of (records_left reader.old)) }
    ensures packed_text { OnOk result (list_all is_text (map unpacked records.new) ≡ true) }
    ensures few { OnOk result (length records.new ≤ length (text_left reader.old)) }
    ensures text { OnOk result (bad_record (records_left reader.old) ≡ None) }
    ensures fault { IfErr result (ExplainsAfter before (records_left reader.old)) }
{
    'records: loop {
        left.set(COMMA_LIMIT);
        match reader.read_record(record) {
            Ok(true) => {
                pack(record, packed)?;
                records.push(packed)?;
            }
            Ok(false) => return Ok(()),
            Err(error) => return Err(fault_of(&error, before + records.len())),
        }
    }
}

// Adds the records of a text that doesn't begin with a mark, packed, to none, as a reader of CSV reads them. `before` is how many records
// of the file come before them.
fn add_text(
    alloc: Global,
    text: &[u8],
    before: usize,
    packed: &mut PackedRecords,
) -> Result<(), SheetFault>
    requires no_mark { strip_bom text.now ≡ text.now }
    requires few { before + length text.now < 2 ^ 64 }
    requires empty { packed.old ≡ [] }
    ensures records { OnOk result (map unpacked packed.new ≡ table_of (records default_config text.now)) }
    ensures packed_text { OnOk result (list_all is_text (map unpacked packed.new) ≡ true) }
    ensures few { OnOk result (length packed.new ≤ length text.now) }
    ensures text { OnOk result (bad_record (records default_config text.now) ≡ None) }
    ensures fault { IfErr result (ExplainsAfter before (records default_config text.now)) }
{
    let mut fields = Vec::new(alloc);
    let left = Cell::new(0);
    let source = UpToCommas {
        bytes: text,
        left: &left,
    };
    let mut reader = ReaderBuilder::new()
        .has_headers(false)
        .flexible(true)
        .from_reader(alloc, source);
    let mut record = StringRecord::new(alloc);
    add_records(&mut reader, &left, before, &mut record, &mut fields, packed)
}

// The records of a text that doesn't begin with a mark, packed, as a reader of CSV reads them. `before` is how many records of the file
// come before them.
fn packed_records(alloc: Global, text: &[u8], before: usize) -> Result<PackedRecords, SheetFault>
    requires no_mark { strip_bom text.now ≡ text.now }
    requires few { before + length text.now < 2 ^ 64 }
    ensures records { IfOk result (λ packed. map unpacked packed ≡ table_of (records default_config text.now)) }
    ensures packed_text { IfOk result (λ packed. list_all is_text (map unpacked packed) ≡ true) }
    ensures few { IfOk result (λ packed. length packed ≤ length text.now) }
    ensures text { OnOk result (bad_record (records default_config text.now) ≡ None) }
    ensures fault { IfErr result (ExplainsAfter before (records default_config text.now)) }
{
    let mut packed = PackedRecords::with_capacity(alloc, text.len())?;
    add_text(alloc, text, before, &mut packed)?;
    Ok(packed)
}

/// The records of a file: the places of its plain lines, how many bytes these lines take with all that stands before and between them, and
/// the other records, packed. From the first line on that isn't plain, a reader of CSV reads them.
pub(crate) fn kept_records(
    alloc: Global,
    file: &[u8],
) -> Result<(Vec<Place>, usize, PackedRecords), SheetFault>
    ensures records { IfOk result
        (λ kept. kept_table (take kept.1 file.now) kept.0.items kept.2 ≡ table_of (records_of file.now)) }
    ensures table_text { IfOk result (λ kept. list_all is_text (kept_table (take kept.1 file.now) kept.0.items kept.2) ≡ true) }
    ensures few { IfOk result (λ kept. length kept.0.items + length kept.2 ≤ length file.now) }
    ensures text { OnOk result (bad_record (records_of file.now) ≡ None) }
    ensures fault { IfErr result (Explains (records_of file.now)) }
{
    let mut lines = Vec::new(alloc);
    let rest = add_plain_lines(file, after_marks(file), &mut lines)?;
    let packed = packed_records(alloc, rest, lines.len())?;
    Ok((lines, file.len() - rest.len(), packed))
}
