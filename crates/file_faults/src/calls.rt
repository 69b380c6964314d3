//! The faults of stop_times.txt.

ghost use Rattle.std.specs.Prelude.{◌≡◌, ◌<◌, ◌≤◌, ◌++◌, ◌-◌, [], ◌∷◌, true, false, length, option_map, IfOk, IfSome, OnOk};
ghost use Rattle.std.specs.List.{filter_map};
ghost use Rattle.gtfs_rows.specs.Faults.{first_fault};
ghost use Rattle.gtfs_rows.specs.Rows.{rows_of, rows_to, texts_in};
ghost use Rattle.gtfs_stops.specs.Stops.{lists_in};
ghost use Rattle.gtfs_text.specs.Sheets.{row_count};
ghost use Rattle.gtfs_rows.specs.declared.fault.FeedFile.TheVariants as files;
ghost use Rattle.gtfs_calls.specs.StopTimes.{AreCallColumns};
ghost use Rattle.gtfs_calls.specs.TripTests.{AreInOrder, calls_by_trip, trip_tests};
ghost use Rattle.file_faults.specs.Lists.{Adds};
ghost use Rattle.file_faults.specs.Seen.{call_keys};
ghost use Rattle.file_faults.specs.Tables.{call_row_tests, or_else, row_faults, size_test, stop_times_faults, trip_faults};

use crate::list::{FaultList, found};
use gtfs_calls::stop_times::{
    CallColumns, CallKeys, call_columns, call_key, calls_in_order, test_stay,
};
use gtfs_calls::trip_tests::{calls_in_front, trip_fault};
use gtfs_rows::{FaultKind, FeedFault, FeedFile, StopTime, Texts, filled_rows, text_under};
use gtfs_services::calendar::are_there;
use gtfs_stops::StopIds;
use gtfs_text::Sheet;
use indexmap::IndexSet;
use std::alloc::{AllocError, Global};
use std::hash::RandomState;

// What is wrong with a row: one without a stop_id is skipped. Its key joins `seen`, if the tests before that of the key hold.
fn call_fault(
    alloc: Global,
    sheet: &Sheet,
    columns: CallColumns,
    stops: &Texts<'_>,
    trips: &Texts<'_>,
    seen: &mut CallKeys,
    row: usize,
) -> Result<Option<FeedFault>, AllocError>
    requires row { row < length sheet.now }
    requires columns { AreCallColumns sheet.now columns }
    requires trips { length trips.now.keys ≤ 999_999_999 }
    requires seen { seen.old.keys ≡ call_keys (texts_in stops.now.keys) (texts_in trips.now.keys) sheet.now (rows_to sheet.now (row - 1)) }
    ensures found { IfOk result (λ found. found
        ≡ first_fault (call_row_tests (texts_in stops.now.keys) (texts_in trips.now.keys) sheet.now row)) }
    ensures seen { OnOk result (seen.new.keys
        ≡ call_keys (texts_in stops.now.keys) (texts_in trips.now.keys) sheet.now (rows_to sheet.now (row - 1) ++ row ∷ [])) }
{
    if text_under(sheet, columns.stop, row).is_empty() {
        return Ok(None);
    }
    let key = match call_key(sheet, columns, stops, trips, row) {
        Ok(key) => key,
        Err(fault) => return found(fault),
    };
    let is_new = seen.insert(key)?;
    if !is_new {
        return Ok(Some(FeedFault::new(FaultKind::DuplicateKey, FeedFile::StopTimes, row)));
    }
    match test_stay(alloc, sheet, columns, row) {
        Ok(()) => Ok(None),
        Err(fault) => found(fault),
    }
}

// Lists the fault of each row that fails a test. The keys of rows join `seen`.
fn list_rows(
    alloc: Global,
    sheet: &Sheet,
    columns: CallColumns,
    stops: &Texts<'_>,
    trips: &Texts<'_>,
    seen: &mut CallKeys,
    list: &mut FaultList,
) -> Result<(), AllocError>
    requires columns { AreCallColumns sheet.now columns }
    requires trips { length trips.now.keys ≤ 999_999_999 }
    requires empty { seen.old.keys ≡ [] }
    ensures { OnOk result (Adds list.old list.new
        (row_faults (call_row_tests (texts_in stops.now.keys) (texts_in trips.now.keys) sheet.now) (rows_of sheet.now))) }
{
    for row in filled_rows(sheet) {
        list.add_found(call_fault(alloc, sheet, columns, stops, trips, seen, row)?)?;
    }
    Ok(())
}

// Lists the fault of each trip whose times are at fault. The calls stand by trip and stop_sequence.
fn list_sorted(calls: &[StopTime], trips: usize, list: &mut FaultList) -> Result<(), AllocError>
    requires { AreInOrder calls.now }
    ensures { OnOk result (Adds list.old list.new (filter_map (λ calls. first_fault (trip_tests calls)) (calls_by_trip calls.now trips))) }
{
    let mut start = 0;
    for trip in 0..trips {
        let rest = &calls[start..];
        let len = calls_in_front(rest, trip);
        list.add_found(trip_fault(&rest[..len]))?;
        start += len;
    }
    Ok(())
}

// Lists the fault of each trip whose times are at fault, if each row passes its tests.
fn list_times(
    alloc: Global,
    sheet: &Sheet,
    columns: CallColumns,
    stops: &Texts<'_>,
    trips: &Texts<'_>,
    list: &mut FaultList,
) -> Result<(), AllocError>
    requires columns { AreCallColumns sheet.now columns }
    requires stops { length stops.now.keys ≤ 1_000_000 }
    requires trips { length trips.now.keys ≤ 999_999_999 }
    requires few { row_count sheet.now ≤ 999_999_999 }
    ensures { OnOk result (Adds list.old list.new (trip_faults (texts_in stops.now.keys) (texts_in trips.now.keys) sheet.now)) }
{
    match calls_in_order(alloc, sheet, columns, stops, trips)? {
        Some((calls, _)) => list_sorted(&calls, trips.len(), list),
        None => Ok(()),
    }
}

// Lists the fault of the file's size, or else those of the times of trips.
fn list_rest(
    alloc: Global,
    sheet: &Sheet,
    columns: CallColumns,
    stops: &Texts<'_>,
    trips: &Texts<'_>,
    list: &mut FaultList,
) -> Result<(), AllocError>
    requires columns { AreCallColumns sheet.now columns }
    requires stops { length stops.now.keys ≤ 1_000_000 }
    requires trips { length trips.now.keys ≤ 999_999_999 }
    ensures { OnOk result (Adds list.old list.new (or_else (first_fault (size_test files.StopTimes true sheet.now ∷ []))
        (trip_faults (texts_in stops.now.keys) (texts_in trips.now.keys) sheet.now))) }
{
    let fits = list.add_size(sheet, FeedFile::StopTimes, true)?;
    if fits {
        list_times(alloc, sheet, columns, stops, trips, list)
    } else {
        Ok(())
    }
}

// Lists the faults of a file that has its columns, under the ids of stops and of trips.
fn list_known(
    alloc: Global,
    hash_keys: RandomState,
    sheet: &Sheet,
    columns: CallColumns,
    stops: &Texts<'_>,
    trips: &Texts<'_>,
    list: &mut FaultList,
) -> Result<(), AllocError>
    requires columns { AreCallColumns sheet.now columns }
    requires stops { length stops.now.keys ≤ 1_000_000 }
    requires trips { length trips.now.keys ≤ 999_999_999 }
    ensures { OnOk result (Adds list.old list.new
        (row_faults (call_row_tests (texts_in stops.now.keys) (texts_in trips.now.keys) sheet.now) (rows_of sheet.now)
        ++ or_else (first_fault (size_test files.StopTimes true sheet.now ∷ []))
        (trip_faults (texts_in stops.now.keys) (texts_in trips.now.keys) sheet.now))) }
{
    let mut seen = IndexSet::with_hasher(alloc, hash_keys);
    list_rows(alloc, sheet, columns, stops, trips, &mut seen, list)?;
    list_rest(alloc, sheet, columns, stops, trips, list)
}

// Lists the fault of the file's size.
fn list_size(sheet: &Sheet, list: &mut FaultList) -> Result<(), AllocError>
    ensures { OnOk result (Adds list.old list.new (or_else (first_fault (size_test files.StopTimes true sheet.now ∷ [])) [])) }
{
    list.add_size(sheet, FeedFile::StopTimes, true)?;
    Ok(())
}

/// Lists the faults of stop_times.txt. Rows are tested only if the ids of stops and of trips are known, and the times of trips only if each
/// row passes its tests.
///
/// It fails only if memory ran out. Keys of rows are looked up under `hash_keys`, which nobody who writes a feed can know.
pub fn list_calls(
    alloc: Global,
    hash_keys: RandomState,
    sheet: &Sheet,
    ids: &Option<StopIds<'_>>,
    trips: &Option<Texts<'_>>,
    list: &mut FaultList,
) -> Result<(), AllocError>
    requires stops { IfSome ids.now (λ ids. length ids.stops.keys ≤ 1_000_000) }
    requires trips { IfSome trips.now (λ ids. length ids.keys ≤ 999_999_999) }
    ensures { OnOk result (Adds list.old list.new
        (stop_times_faults (option_map lists_in ids.now) (option_map (λ ids. texts_in ids.keys) trips.now) sheet.now)) }
{
    let columns = call_columns(sheet);
    if !are_there(&[columns.trip, columns.stop, columns.sequence]) {
        return list.add_lacking(FeedFile::StopTimes);
    }
    let Some(ids) = ids else {
        return list_size(sheet, list);
    };
    let Some(trips) = trips else {
        return list_size(sheet, list);
    };
    list_known(alloc, hash_keys, sheet, columns, &ids.stops, trips, list)
}
