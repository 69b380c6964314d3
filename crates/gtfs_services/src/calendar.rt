//! calendar.txt.

ghost use Rattle.std.specs.Prelude.{◌≡◌, ◌<◌, [], length, map, is_some, Option, List, ℕ};
ghost use Rattle.std.specs.List.{list_all, flat_map};
ghost use Rattle.gtfs_rows.specs.declared.fault.FeedFile.TheVariants as files;
ghost use Rattle.gtfs_rows.specs.Faults.{Answers};
ghost use Rattle.gtfs_rows.specs.Rows.{IsContent, has_new_key, optional_tests, rows_of, table_in, text_under};
ghost use Rattle.gtfs_services.specs.Calendar.{service_id, flag_of, weekdays_in, calendar_row_tests, calendar_row_value, calendar_tests, calendar_values, AreCalendarColumns};

use gtfs_rows::{
    CalendarRow, FaultKind, FeedFault, FeedFile, Id, ROW_LIMIT, Texts, filled_rows, open_sheet,
    text_under,
};
use gtfs_text::{Sheet, date};
use indexmap::IndexSet;
use std::alloc::Global;
use std::hash::RandomState;
use std::io::Read;

/// Where the columns of calendar.txt are.
#[derive(Clone, Copy)]
pub struct CalendarColumns {
    pub service: Option<usize>,
    /// From Monday on.
    pub weekdays: [Option<usize>; 7],
    pub start: Option<usize>,
    pub end: Option<usize>,
}

/// Looks for the columns in the header.
pub fn calendar_columns(sheet: &Sheet) -> CalendarColumns
    ensures { AreCalendarColumns sheet.now result }
{
    CalendarColumns {
        service: sheet.column("service_id"),
        weekdays: [
            sheet.column("monday"),
            sheet.column("tuesday"),
            sheet.column("wednesday"),
            sheet.column("thursday"),
            sheet.column("friday"),
            sheet.column("saturday"),
            sheet.column("sunday"),
        ],
        start: sheet.column("start_date"),
        end: sheet.column("end_date"),
    }
}

/// Whether each of these columns is there.
pub fn are_there(columns: &[Option<usize>]) -> bool
    ensures { result ≡ list_all is_some columns.now }
{
    columns.iter().all(|column| column.is_some())
}

// Whether the service runs on a weekday with this text.
fn flag(text: &str) -> Option<bool>
    ensures { result ≡ flag_of text.now }
{
    match text {
        "0" => Some(false),
        "1" => Some(true),
        _ => None,
    }
}

// On which weekdays a row's service runs, if each field says it.
fn weekdays_of(sheet: &Sheet, columns: &[Option<usize>; 7], row: usize) -> Option<[bool; 7]>
    requires { row < length sheet.now }
    ensures { result ≡ weekdays_in (map (λ column. text_under sheet.now column row) columns.now) }
{
    let mut weekdays = [false; 7];
    for (day, column) in columns.iter().enumerate() {
        weekdays[day] = flag(text_under(sheet, *column, row))?;
    }
    Some(weekdays)
}

/// The values of a row of calendar.txt whose service is new or isn't, if it passes its tests.
pub fn read_row(
    alloc: Global,
    sheet: &Sheet,
    columns: CalendarColumns,
    is_new: bool,
    row: usize,
) -> Result<CalendarRow, FeedFault>
    requires row { row < length sheet.now }
    requires columns { AreCalendarColumns sheet.now columns }
    requires is_new { is_new ≡ has_new_key sheet.now (service_id sheet.now) row }
    ensures { Answers (λ value. value) result (calendar_row_tests sheet.now row) (calendar_row_value sheet.now row) }
{
    let bad_field = FeedFault::new(FaultKind::BadField, FeedFile::Calendar, row);
    let service = text_under(sheet, columns.service, row);
    if service.is_empty() {
        return Err(bad_field);
    }
    if !is_new {
        return Err(FeedFault::new(FaultKind::DuplicateKey, FeedFile::Calendar, row));
    }
    let Some(weekdays) = weekdays_of(sheet, &columns.weekdays, row) else {
        return Err(bad_field);
    };
    let Some(start) = date(text_under(sheet, columns.start, row)) else {
        return Err(bad_field);
    };
    let Some(end) = date(text_under(sheet, columns.end, row)) else {
        return Err(bad_field);
    };
    Ok(CalendarRow {
        service: Id::new(alloc, service)?,
        weekdays,
        start,
        end,
    })
}

// The rows, if each passes its tests. Their services join `services`.
fn keep_rows<'a>(
    alloc: Global,
    sheet: &'a Sheet,
    columns: CalendarColumns,
    services: &mut Texts<'a>,
) -> Result<Vec<CalendarRow>, FeedFault>
    requires columns { AreCalendarColumns sheet.now columns }
    requires empty { services.old.keys ≡ [] }
    ensures { Answers (λ rows. rows.items) result (flat_map (calendar_row_tests sheet.now) (rows_of sheet.now))
        (calendar_values sheet.now) }
{
    let mut rows = Vec::new(alloc);
    for row in filled_rows(sheet) {
        let is_new = services.insert(text_under(sheet, columns.service, row))?;
        rows.push(read_row(alloc, sheet, columns, is_new, row)?)?;
    }
    Ok(rows)
}

// The rows, if each passes its tests.
fn read_rows(
    alloc: Global,
    hash_keys: RandomState,
    sheet: &Sheet,
    columns: CalendarColumns,
) -> Result<Vec<CalendarRow>, FeedFault>
    requires { AreCalendarColumns sheet.now columns }
    ensures { Answers (λ rows. rows.items) result (flat_map (calendar_row_tests sheet.now) (rows_of sheet.now))
        (calendar_values sheet.now) }
{
    let mut services = IndexSet::with_hasher(alloc, hash_keys);
    keep_rows(alloc, sheet, columns, &mut services)
}

// The rows of the file, if each of its tests holds.
fn read_sheet(
    alloc: Global,
    hash_keys: RandomState,
    sheet: &Sheet,
) -> Result<Vec<CalendarRow>, FeedFault>
    ensures { Answers (λ rows. rows.items) result (calendar_tests sheet.now) (calendar_values sheet.now) }
{
    let columns = calendar_columns(sheet);
    if !are_there(&[columns.service, columns.start, columns.end]) || !are_there(&columns.weekdays) {
        return Err(FeedFault::new(FaultKind::MissingColumn, FeedFile::Calendar, 0));
    }
    let rows = read_rows(alloc, hash_keys, sheet, columns)?;
    if sheet.rows() > ROW_LIMIT {
        return Err(FeedFault::new(FaultKind::TooMany, FeedFile::Calendar, 0));
    }
    Ok(rows)
}

/// Reads calendar.txt (GTFS Schedule reference, calendar.txt): one value for each row that isn't blank, in file order;
/// none if there is no such file. Rows are counted from 1. An end date may stand before its start date.
///
/// The error is the first of these, with its row: `BadCsv` for a record that isn't UTF-8 (the header is row 0);
/// `MissingColumn`, row 0, if one of the ten columns isn't there; then row by row `BadField` for an empty
/// `service_id`, `DuplicateKey` for one that an earlier row has, `BadField` for a weekday that is neither `0` nor `1`,
/// and `BadField` for a date that is no day of the calendar; then `TooMany`, row 0, for more than 999,999,999 rows, blank
/// ones among them. `ReadFailed` and `Memory` can come in place of any answer. Services are looked up under `hash_keys`, which
/// nobody who writes a feed can know.
pub fn read_calendar<R: Read + Drop>(
    alloc: Global,
    hash_keys: RandomState,
    reader: Option<R>,
) -> Result<Vec<CalendarRow>, FeedFault>
    ensures { (bytes : Option (List ℕ)) → IsContent R.remaining reader bytes
        → Answers (λ rows. rows.items) result (optional_tests files.Calendar calendar_tests bytes) (calendar_values (table_in bytes)) }
{
    if reader.is_none() {
        return Ok(Vec::new(alloc));
    }
    let sheet = open_sheet(alloc, FeedFile::Calendar, reader)?;
    read_sheet(alloc, hash_keys, &sheet)
}
