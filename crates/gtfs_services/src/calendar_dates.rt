//! calendar_dates.txt.

ghost use Rattle.std.specs.Prelude.{◌≡◌, ◌<◌, [], length, Option, List, ℕ, pos};
ghost use Rattle.std.specs.List.{flat_map};
ghost use Rattle.gtfs_rows.specs.declared.fault.FeedFile.TheVariants as files;
ghost use Rattle.gtfs_rows.specs.Faults.{Answers};
ghost use Rattle.gtfs_rows.specs.Rows.{IsContent, optional_tests, rows_of, table_in};
ghost use Rattle.gtfs_services.specs.CalendarDates.{change_of, field_tests, calendar_date_tests, calendar_date_value, calendar_dates_tests, calendar_date_values, AreDateColumns};

use civil_dates::Date;
use gtfs_rows::{
    CalendarDate, DateChange, FaultKind, FeedFault, FeedFile, Id, ROW_LIMIT, filled_rows,
    open_sheet, text_under,
};
use gtfs_text::{Sheet, date};
use indexmap::IndexSet;
use std::alloc::Global;
use std::hash::RandomState;
use std::io::Read;

/// A service, and the year, month and day of a date.
pub type ServiceDate<'a> = (&'a str, i16, i8, i8);

/// Where the columns of calendar_dates.txt are.
#[derive(Clone, Copy)]
pub struct DateColumns {
    pub service: Option<usize>,
    pub date: Option<usize>,
    pub exception_type: Option<usize>,
}

/// Looks for the columns in the header.
pub fn date_columns(sheet: &Sheet) -> DateColumns
    ensures { AreDateColumns sheet.now result }
{
    DateColumns {
        service: sheet.column("service_id"),
        date: sheet.column("date"),
        exception_type: sheet.column("exception_type"),
    }
}

// What an exception_type says.
fn change_of(text: &str) -> Option<DateChange>
    ensures { result ≡ change_of text.now }
{
    match text {
        "1" => Some(DateChange::Added),
        "2" => Some(DateChange::Removed),
        _ => None,
    }
}

/// What a row names: no other row may name it too.
pub fn service_date(service: &str, date: Date) -> ServiceDate<'_>
    ensures service { result.0.now ≡ service.now }
    ensures year { result.1 ≡ date.year }
    ensures month { result.2 ≡ pos date.month }
    ensures day { result.3 ≡ pos date.day }
{
    (service, date.year(), date.month() as i8, date.day() as i8)
}

/// The values of a row of calendar_dates.txt, if its fields pass their tests. Whether it is the first of its service and date isn't tested.
pub fn read_row(
    alloc: Global,
    sheet: &Sheet,
    columns: DateColumns,
    row: usize,
) -> Result<CalendarDate, FeedFault>
    requires row { row < length sheet.now }
    requires columns { AreDateColumns sheet.now columns }
    ensures { Answers (λ value. value) result (field_tests sheet.now row) (calendar_date_value sheet.now row) }
{
    let bad_field = FeedFault::new(FaultKind::BadField, FeedFile::CalendarDates, row);
    let service = text_under(sheet, columns.service, row);
    if service.is_empty() {
        return Err(bad_field);
    }
    let Some(date) = date(text_under(sheet, columns.date, row)) else {
        return Err(bad_field);
    };
    let Some(change) = change_of(text_under(sheet, columns.exception_type, row)) else {
        return Err(bad_field);
    };
    Ok(CalendarDate {
        service: Id::new(alloc, service)?,
        date,
        change,
    })
}

// The rows, if each passes its tests. Their services and days join `dates`.
fn keep_rows<'a>(
    alloc: Global,
    sheet: &'a Sheet,
    columns: DateColumns,
    dates: &mut IndexSet<ServiceDate<'a>, RandomState>,
) -> Result<Vec<CalendarDate>, FeedFault>
    requires columns { AreDateColumns sheet.now columns }
    requires empty { dates.old.keys ≡ [] }
    ensures { Answers (λ rows. rows.items) result (flat_map (calendar_date_tests sheet.now) (rows_of sheet.now))
        (calendar_date_values sheet.now) }
{
    let mut rows = Vec::new(alloc);
    for row in filled_rows(sheet) {
        let value = read_row(alloc, sheet, columns, row)?;
        let service = text_under(sheet, columns.service, row);
        let is_new = dates.insert(service_date(service, value.date))?;
        if !is_new {
            return Err(FeedFault::new(FaultKind::DuplicateKey, FeedFile::CalendarDates, row));
        }
        rows.push(value)?;
    }
    Ok(rows)
}

// The rows, if each passes its tests.
fn read_rows(
    alloc: Global,
    hash_keys: RandomState,
    sheet: &Sheet,
    columns: DateColumns,
) -> Result<Vec<CalendarDate>, FeedFault>
    requires { AreDateColumns sheet.now columns }
    ensures { Answers (λ rows. rows.items) result (flat_map (calendar_date_tests sheet.now) (rows_of sheet.now))
        (calendar_date_values sheet.now) }
{
    let mut dates = IndexSet::with_hasher(alloc, hash_keys);
    keep_rows(alloc, sheet, columns, &mut dates)
}

// The rows of the file, if each of its tests holds.
fn read_sheet(
    alloc: Global,
    hash_keys: RandomState,
    sheet: &Sheet,
) -> Result<Vec<CalendarDate>, FeedFault>
    ensures { Answers (λ rows. rows.items) result (calendar_dates_tests sheet.now) (calendar_date_values sheet.now) }
{
    let columns = date_columns(sheet);
    if columns.service.is_none() || columns.date.is_none() || columns.exception_type.is_none() {
        return Err(FeedFault::new(FaultKind::MissingColumn, FeedFile::CalendarDates, 0));
    }
    let rows = read_rows(alloc, hash_keys, sheet, columns)?;
    if sheet.rows() > ROW_LIMIT {
        return Err(FeedFault::new(FaultKind::TooMany, FeedFile::CalendarDates, 0));
    }
    Ok(rows)
}

/// Reads calendar_dates.txt (GTFS Schedule reference, calendar_dates.txt): one value for each row that isn't blank, in
/// file order; none if there is no such file. Rows are counted from 1.
///
/// The error is the first of these, with its row: `BadCsv` for a record that isn't UTF-8 (the header is row 0);
/// `MissingColumn`, row 0, if one of the three columns isn't there; then row by row `BadField` for an empty
/// `service_id`, for a `date` that is no day of the calendar and for an `exception_type` that is neither `1` nor `2`, and
/// `DuplicateKey` if an earlier row has the service and the day; then `TooMany`, row 0, for more than 999,999,999 rows,
/// blank ones among them. `ReadFailed` and `Memory` can come in place of any answer. Services and days are looked up under
/// `hash_keys`, which nobody who writes a feed can know.
pub fn read_calendar_dates<R: Read + Drop>(
    alloc: Global,
    hash_keys: RandomState,
    reader: Option<R>,
) -> Result<Vec<CalendarDate>, FeedFault>
    ensures { (bytes : Option (List ℕ)) → IsContent R.remaining reader bytes
        → Answers (λ rows. rows.items) result (optional_tests files.CalendarDates calendar_dates_tests bytes)
        (calendar_date_values (table_in bytes)) }
{
    if reader.is_none() {
        return Ok(Vec::new(alloc));
    }
    let sheet = open_sheet(alloc, FeedFile::CalendarDates, reader)?;
    read_sheet(alloc, hash_keys, &sheet)
}
