//! What a row has under the columns that its fault is about.

use crate::columns::{concerned, required, tested};
use csv::{Error, ErrorKind, Reader, ReaderBuilder, StringRecord};
use gtfs_rows::{FaultKind, FeedFault, FeedFile};
use std::alloc::{AllocError, Global};
use std::io::Read;

/// A byte order mark, which may stand before the first name of a header.
const MARK: char = '\u{feff}';

/// A column and what a row has there.
#[derive(Drop)]
pub(crate) struct Field {
    pub column: &'static str,
    /// Empty if the row or the file doesn't have the column.
    pub text: String,
}

// Why no record is read: want of memory, or else nothing more is said of the file.
fn unread(error: &Error) -> Result<bool, AllocError> {
    match error.kind() {
        ErrorKind::OutOfMemory => Err(AllocError),
        _ => Ok(false),
    }
}

/// The records of a file, of which the header and one more are held.
#[derive(Drop)]
struct Records<R: Read> {
    reader: Reader<R>,
    header: StringRecord,
    row: StringRecord,
}

impl<R: Read + Drop> Records<R> {
    /// The records of a file by its bytes: none is read yet. A header is a record as any other.
    fn new(alloc: Global, source: R) -> Records<R> {
        Records {
            reader: ReaderBuilder::new()
                .has_headers(false)
                .flexible(true)
                .from_reader(alloc, source),
            header: StringRecord::new(alloc),
            row: StringRecord::new(alloc),
        }
    }

    /// Reads the first record as the header. False if there is none, or it can't be read.
    fn read_header(&mut self) -> Result<bool, AllocError> {
        next(&mut self.reader, &mut self.header)
    }

    /// Reads the next records, `records` of them, and holds the last. False if there are fewer, or one can't be read.
    fn read_on(&mut self, records: usize) -> Result<bool, AllocError> {
        for _ in 0..records {
            if !next(&mut self.reader, &mut self.row)? {
                return Ok(false);
            }
        }
        Ok(true)
    }
}

// Reads the next record. False if there is none, or it can't be read.
fn next<R: Read + Drop>(
    reader: &mut Reader<R>,
    record: &mut StringRecord,
) -> Result<bool, AllocError> {
    match reader.read_record(record) {
        Ok(found) => Ok(found),
        Err(error) => unread(&error),
    }
}

// The place of a column in a header: of several the first.
fn place_of(header: &StringRecord, column: &str) -> Option<usize> {
    header.iter().position(|name| name.trim_start_matches(MARK).trim_matches(' ') == column)
}

// What a row has under a column.
fn field_of(
    alloc: Global,
    header: &StringRecord,
    row: &StringRecord,
    column: &'static str,
) -> Result<Field, AllocError> {
    let text = match place_of(header, column) {
        Some(place) => row.get(place).unwrap_or("").trim_matches(' '),
        None => "",
    };
    Ok(Field {
        column,
        text: String::from_str(alloc, text)?,
    })
}

// The first field of a row whose text its column doesn't take.
fn first_bad(
    alloc: Global,
    file: FeedFile,
    header: &StringRecord,
    row: &StringRecord,
) -> Result<Vec<Field>, AllocError> {
    let mut fields = Vec::new(alloc);
    for (column, form) in tested(file) {
        let field = field_of(alloc, header, row, column)?;
        if !form.takes(field.text.as_str()) {
            fields.push(field)?;
            return Ok(fields);
        }
    }
    Ok(fields)
}

// The fields of a row that a fault is about.
fn fields_of(
    alloc: Global,
    fault: &FeedFault,
    header: &StringRecord,
    row: &StringRecord,
) -> Result<Vec<Field>, AllocError> {
    if fault.kind == FaultKind::BadField {
        return first_bad(alloc, fault.file, header, row);
    }
    let mut fields = Vec::new(alloc);
    for column in concerned(fault.kind, fault.file) {
        fields.push(field_of(alloc, header, row, column)?)?;
    }
    Ok(fields)
}

// The fields that a fault is about: none if it is of no row, or there is no such row.
fn fields_in<R: Read + Drop>(
    alloc: Global,
    records: &mut Records<R>,
    fault: &FeedFault,
) -> Result<Vec<Field>, AllocError> {
    if fault.row == 0 || !records.read_header()? || !records.read_on(fault.row)? {
        return Ok(Vec::new(alloc));
    }
    fields_of(alloc, fault, &records.header, &records.row)
}

/// The fields of the file that a fault of the feed is about, by the file's bytes. For a text that its column doesn't take they are the
/// first such; for other faults of a row all that the fault may be about. There are none for a fault of no row, and if the file no
/// longer has the row. It holds one record at a time, and fails only if memory runs out.
pub(crate) fn fields_at<R: Read + Drop>(
    alloc: Global,
    source: R,
    fault: &FeedFault,
) -> Result<Vec<Field>, AllocError> {
    let mut records = Records::new(alloc, source);
    fields_in(alloc, &mut records, fault)
}

// The rows of faults, each with its fault's place among them, in the order of rows.
fn rows_in_order(alloc: Global, faults: &[FeedFault]) -> Result<Vec<(usize, usize)>, AllocError> {
    let mut rows = Vec::new(alloc);
    for (place, fault) in faults.iter().enumerate() {
        rows.push((fault.row, place))?;
    }
    rows.sort_unstable();
    Ok(rows)
}

// An empty list of fields for each fault.
fn none_yet(alloc: Global, faults: &[FeedFault]) -> Result<Vec<Vec<Field>>, AllocError> {
    let mut found = Vec::new(alloc);
    for _ in faults {
        found.push(Vec::new(alloc))?;
    }
    Ok(found)
}

// Puts the fields of the fault at a place, if it is of a row.
fn put_fields<R: Read + Drop>(
    alloc: Global,
    found: &mut Vec<Vec<Field>>,
    faults: &[FeedFault],
    place: usize,
    records: &Records<R>,
) -> Result<(), AllocError> {
    if let (Some(slot), Some(fault)) = (found.get_mut(place), faults.get(place)) {
        if fault.row > 0 {
            *slot = fields_of(alloc, fault, &records.header, &records.row)?;
        }
    }
    Ok(())
}

// Puts the fields of each of these faults, whose rows are in order, as far as the file has the rows.
fn put_all<R: Read + Drop>(
    alloc: Global,
    records: &mut Records<R>,
    faults: &[FeedFault],
    rows: &[(usize, usize)],
    found: &mut Vec<Vec<Field>>,
) -> Result<(), AllocError> {
    if !records.read_header()? {
        return Ok(());
    }
    let mut passed = 0;
    for (row, place) in rows {
        if !records.read_on(row.saturating_sub(passed))? {
            return Ok(());
        }
        passed = *row;
        put_fields(alloc, found, faults, *place, records)?;
    }
    Ok(())
}

// The fields that each of these faults is about.
fn all_fields<R: Read + Drop>(
    alloc: Global,
    records: &mut Records<R>,
    faults: &[FeedFault],
) -> Result<Vec<Vec<Field>>, AllocError> {
    let rows = rows_in_order(alloc, faults)?;
    let mut found = none_yet(alloc, faults)?;
    put_all(alloc, records, faults, rows.as_slice(), &mut found)?;
    Ok(found)
}

/// The fields of a file that each of these faults of it is about, in the order of the faults, each as `fields_at` gives them. The file is
/// read once. It holds one record at a time, and fails only if memory runs out.
pub(crate) fn fields_of_all<R: Read + Drop>(
    alloc: Global,
    source: R,
    faults: &[FeedFault],
) -> Result<Vec<Vec<Field>>, AllocError> {
    let mut records = Records::new(alloc, source);
    all_fields(alloc, &mut records, faults)
}

// The columns that a file must have and its header lacks.
fn lacking<R: Read + Drop>(
    alloc: Global,
    records: &mut Records<R>,
    file: FeedFile,
) -> Result<Vec<&'static str>, AllocError> {
    let mut missing = Vec::new(alloc);
    records.read_header()?;
    for column in required(file) {
        if place_of(&records.header, column).is_none() {
            missing.push(*column)?;
        }
    }
    Ok(missing)
}

/// The columns that a file must have and its header lacks, by the file's bytes. It fails only if memory runs out.
pub(crate) fn missing_columns<R: Read + Drop>(
    alloc: Global,
    source: R,
    file: FeedFile,
) -> Result<Vec<&'static str>, AllocError> {
    let mut records = Records::new(alloc, source);
    lacking(alloc, &mut records, file)
}
