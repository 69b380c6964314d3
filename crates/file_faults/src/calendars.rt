//! The faults of calendar.txt and calendar_dates.txt.

ghost use Rattle.std.specs.Prelude.{◌≡◌, ◌<◌, ◌++◌, [], ◌∷◌, length, IfOk, OnOk, ◌-◌};
ghost use Rattle.gtfs_rows.specs.Faults.{first_fault};
ghost use Rattle.gtfs_rows.specs.Rows.{has_new_key, rows_of, rows_to};
ghost use Rattle.gtfs_services.specs.Calendar.{AreCalendarColumns, calendar_row_tests, service_id};
ghost use Rattle.gtfs_services.specs.CalendarDates.{AreDateColumns};
ghost use Rattle.file_faults.specs.Lists.{Adds};
ghost use Rattle.file_faults.specs.Seen.{HasDates};
ghost use Rattle.file_faults.specs.Tables.{calendar_dates_faults, calendar_faults, date_tests, row_faults};

use crate::list::{FaultList, found};
use gtfs_rows::{FaultKind, FeedFault, FeedFile, Texts, filled_rows, text_under};
use gtfs_services::calendar::{CalendarColumns, are_there, calendar_columns};
use gtfs_services::calendar_dates::{DateColumns, ServiceDate, date_columns, service_date};
use gtfs_services::{calendar, calendar_dates};
use gtfs_text::Sheet;
use indexmap::IndexSet;
use std::alloc::{AllocError, Global};
use std::hash::RandomState;

// The services and days of rows.
type Dates<'a> = IndexSet<ServiceDate<'a>, RandomState>;

// What is wrong with a row of calendar.txt, whose service is new or isn't.
fn week_fault(
    alloc: Global,
    sheet: &Sheet,
    columns: CalendarColumns,
    is_new: bool,
    row: usize,
) -> Result<Option<FeedFault>, AllocError>
    requires row { row < length sheet.now }
    requires columns { AreCalendarColumns sheet.now columns }
    requires is_new { is_new ≡ has_new_key sheet.now (service_id sheet.now) row }
    ensures { IfOk result (λ found. found ≡ first_fault (calendar_row_tests sheet.now row)) }
{
    match calendar::read_row(alloc, sheet, columns, is_new, row) {
        Ok(_value) => Ok(None),
        Err(fault) => found(fault),
    }
}

// Lists the fault of each row of calendar.txt that fails a test. The services of all rows join `services`.
fn list_weeks<'a>(
    alloc: Global,
    sheet: &'a Sheet,
    columns: CalendarColumns,
    services: &mut Texts<'a>,
    list: &mut FaultList,
) -> Result<(), AllocError>
    requires columns { AreCalendarColumns sheet.now columns }
    requires empty { services.old.keys ≡ [] }
    ensures { OnOk result (Adds list.old list.new (row_faults (calendar_row_tests sheet.now) (rows_of sheet.now))) }
{
    for row in filled_rows(sheet) {
        let is_new = services.insert(text_under(sheet, columns.service, row))?;
        list.add_found(week_fault(alloc, sheet, columns, is_new, row)?)?;
    }
    Ok(())
}

// The same, for a file that has its columns.
fn list_services(
    alloc: Global,
    hash_keys: RandomState,
    sheet: &Sheet,
    columns: CalendarColumns,
    list: &mut FaultList,
) -> Result<(), AllocError>
    requires { AreCalendarColumns sheet.now columns }
    ensures { OnOk result (Adds list.old list.new (row_faults (calendar_row_tests sheet.now) (rows_of sheet.now))) }
{
    let mut services = IndexSet::with_hasher(alloc, hash_keys);
    list_weeks(alloc, sheet, columns, &mut services, list)
}

/// Lists the faults of calendar.txt.
///
/// It fails only if memory ran out. Services are looked up under `hash_keys`, which nobody who writes a feed can know.
pub fn list_calendar(
    alloc: Global,
    hash_keys: RandomState,
    sheet: &Sheet,
    list: &mut FaultList,
) -> Result<(), AllocError>
    ensures { OnOk result (Adds list.old list.new (calendar_faults sheet.now)) }
{
    let columns = calendar_columns(sheet);
    if !are_there(&[columns.service, columns.start, columns.end]) || !are_there(&columns.weekdays) {
        return list.add_lacking(FeedFile::Calendar);
    }
    list_services(alloc, hash_keys, sheet, columns, list)?;
    list.add_size(sheet, FeedFile::Calendar, true)?;
    Ok(())
}

// What is wrong with a row of calendar_dates.txt. What it names joins `dates`, if its fields pass their tests.
fn date_fault<'a>(
    alloc: Global,
    sheet: &'a Sheet,
    columns: DateColumns,
    dates: &mut Dates<'a>,
    row: usize,
) -> Result<Option<FeedFault>, AllocError>
    requires row { row < length sheet.now }
    requires columns { AreDateColumns sheet.now columns }
    requires dates { HasDates sheet.now (rows_to sheet.now (row - 1)) dates.old.keys }
    ensures found { IfOk result (λ found. found ≡ first_fault (date_tests sheet.now row)) }
    ensures dates { OnOk result (HasDates sheet.now (rows_to sheet.now (row - 1) ++ row ∷ []) dates.new.keys) }
{
    let date = match calendar_dates::read_row(alloc, sheet, columns, row) {
        Ok(value) => value.date,
        Err(fault) => return found(fault),
    };
    let service = text_under(sheet, columns.service, row);
    let is_new = dates.insert(service_date(service, date))?;
    if is_new {
        Ok(None)
    } else {
        Ok(Some(FeedFault::new(FaultKind::DuplicateKey, FeedFile::CalendarDates, row)))
    }
}

// Lists the fault of each row of calendar_dates.txt that fails a test. What rows name joins `dates`.
fn list_dates<'a>(
    alloc: Global,
    sheet: &'a Sheet,
    columns: DateColumns,
    dates: &mut Dates<'a>,
    list: &mut FaultList,
) -> Result<(), AllocError>
    requires columns { AreDateColumns sheet.now columns }
    requires empty { dates.old.keys ≡ [] }
    ensures { OnOk result (Adds list.old list.new (row_faults (date_tests sheet.now) (rows_of sheet.now))) }
{
    for row in filled_rows(sheet) {
        list.add_found(date_fault(alloc, sheet, columns, dates, row)?)?;
    }
    Ok(())
}

// The same, for a file that has its columns.
fn list_days(
    alloc: Global,
    hash_keys: RandomState,
    sheet: &Sheet,
    columns: DateColumns,
    list: &mut FaultList,
) -> Result<(), AllocError>
    requires { AreDateColumns sheet.now columns }
    ensures { OnOk result (Adds list.old list.new (row_faults (date_tests sheet.now) (rows_of sheet.now))) }
{
    let mut dates = IndexSet::with_hasher(alloc, hash_keys);
    list_dates(alloc, sheet, columns, &mut dates, list)
}

/// Lists the faults of calendar_dates.txt.
///
/// It fails only if memory ran out. Services and their days are looked up under `hash_keys`, which nobody who writes a feed can know.
pub fn list_calendar_dates(
    alloc: Global,
    hash_keys: RandomState,
    sheet: &Sheet,
    list: &mut FaultList,
) -> Result<(), AllocError>
    ensures { OnOk result (Adds list.old list.new (calendar_dates_faults sheet.now)) }
{
    let columns = date_columns(sheet);
    if !are_there(&[columns.service, columns.date, columns.exception_type]) {
        return list.add_lacking(FeedFile::CalendarDates);
    }
    list_days(alloc, hash_keys, sheet, columns, list)?;
    list.add_size(sheet, FeedFile::CalendarDates, true)?;
    Ok(())
}
