//! The faults of transfers.txt and frequencies.txt.

ghost use Rattle.std.specs.Prelude.{◌≡◌, ◌<◌, ◌≤◌, ◌++◌, ◌-◌, [], ◌∷◌, length, option_map, IfOk, IfSome, OnOk};
ghost use Rattle.gtfs_rows.specs.Faults.{first_fault};
ghost use Rattle.gtfs_rows.specs.Rows.{rows_of, rows_to, texts_in};
ghost use Rattle.gtfs_stops.specs.Stops.{lists_in};
ghost use Rattle.gtfs_stops.specs.Transfers.{AreTransferColumns, transfer_tests};
ghost use Rattle.gtfs_frequencies.specs.Frequencies.{AreFrequencyColumns};
ghost use Rattle.file_faults.specs.Lists.{Adds};
ghost use Rattle.file_faults.specs.Seen.{start_keys};
ghost use Rattle.file_faults.specs.Tables.{frequencies_faults, row_faults, start_rows, start_tests, transfer_rows, transfers_faults};

use crate::list::{FaultList, fault_of, found};
use gtfs_frequencies::frequencies::{FrequencyColumns, FrequencyKeys, frequency_columns, read_row};
use gtfs_rows::{FaultKind, FeedFault, FeedFile, Texts, filled_rows};
use gtfs_services::calendar::are_there;
use gtfs_stops::StopIds;
use gtfs_stops::transfers::{TransferColumns, row_fault, transfer_columns};
use gtfs_text::Sheet;
use indexmap::IndexSet;
use std::alloc::{AllocError, Global};
use std::hash::RandomState;

// Lists the fault of each row of transfers.txt that fails a test.
fn list_rows(
    sheet: &Sheet,
    columns: TransferColumns,
    ids: &StopIds<'_>,
    list: &mut FaultList,
) -> Result<(), AllocError>
    requires columns { AreTransferColumns sheet.now columns }
    requires stops { length ids.now.stops.keys ≤ 1_000_000 }
    requires stations { length ids.now.stations.keys ≤ 999_999_999 }
    ensures { OnOk result (Adds list.old list.new (row_faults (transfer_tests (lists_in ids.now) sheet.now) (rows_of sheet.now))) }
{
    for row in filled_rows(sheet) {
        let kind = row_fault(sheet, columns, ids, row);
        list.add_found(fault_of(kind, FeedFile::Transfers, row))?;
    }
    Ok(())
}

// The same, if the ids of stops.txt are known.
fn list_linked(
    sheet: &Sheet,
    columns: TransferColumns,
    ids: &Option<StopIds<'_>>,
    list: &mut FaultList,
) -> Result<(), AllocError>
    requires columns { AreTransferColumns sheet.now columns }
    requires stops { IfSome ids.now (λ ids. length ids.stops.keys ≤ 1_000_000) }
    requires stations { IfSome ids.now (λ ids. length ids.stations.keys ≤ 999_999_999) }
    ensures { OnOk result (Adds list.old list.new (transfer_rows (option_map lists_in ids.now) sheet.now)) }
{
    match ids {
        Some(ids) => list_rows(sheet, columns, ids, list),
        None => Ok(()),
    }
}

/// Lists the faults of transfers.txt. Rows are tested only if the ids of stops.txt are known. It fails only if memory ran out.
pub fn list_transfers(
    sheet: &Sheet,
    ids: &Option<StopIds<'_>>,
    list: &mut FaultList,
) -> Result<(), AllocError>
    requires stops { IfSome ids.now (λ ids. length ids.stops.keys ≤ 1_000_000) }
    requires stations { IfSome ids.now (λ ids. length ids.stations.keys ≤ 999_999_999) }
    ensures { OnOk result (Adds list.old list.new (transfers_faults (option_map lists_in ids.now) sheet.now)) }
{
    let columns = transfer_columns(sheet);
    if !are_there(&[columns.from, columns.to]) {
        return list.add_lacking(FeedFile::Transfers);
    }
    list_linked(sheet, columns, ids, list)?;
    list.add_size(sheet, FeedFile::Transfers, true)?;
    Ok(())
}

// What is wrong with a row of frequencies.txt. Its key joins `seen`, if its fields pass their tests.
fn start_fault(
    sheet: &Sheet,
    columns: FrequencyColumns,
    trips: &Texts<'_>,
    seen: &mut FrequencyKeys,
    row: usize,
) -> Result<Option<FeedFault>, AllocError>
    requires row { row < length sheet.now }
    requires columns { AreFrequencyColumns sheet.now columns }
    requires trips { length trips.now.keys ≤ 999_999_999 }
    requires seen { seen.old.keys ≡ start_keys (texts_in trips.now.keys) sheet.now (rows_to sheet.now (row - 1)) }
    ensures found { IfOk result (λ found. found ≡ first_fault (start_tests (texts_in trips.now.keys) sheet.now row)) }
    ensures seen { OnOk result (seen.new.keys ≡ start_keys (texts_in trips.now.keys) sheet.now (rows_to sheet.now (row - 1) ++ row ∷ [])) }
{
    let value = match read_row(sheet, columns, trips, row) {
        Ok(value) => value,
        Err(fault) => return found(fault),
    };
    let is_new = seen.insert((value.trip, value.start))?;
    if is_new {
        Ok(None)
    } else {
        Ok(Some(FeedFault::new(FaultKind::DuplicateKey, FeedFile::Frequencies, row)))
    }
}

// Lists the fault of each row of frequencies.txt that fails a test. The keys of rows join `seen`.
fn list_starts(
    sheet: &Sheet,
    columns: FrequencyColumns,
    trips: &Texts<'_>,
    seen: &mut FrequencyKeys,
    list: &mut FaultList,
) -> Result<(), AllocError>
    requires columns { AreFrequencyColumns sheet.now columns }
    requires trips { length trips.now.keys ≤ 999_999_999 }
    requires empty { seen.old.keys ≡ [] }
    ensures { OnOk result (Adds list.old list.new (row_faults (start_tests (texts_in trips.now.keys) sheet.now) (rows_of sheet.now))) }
{
    for row in filled_rows(sheet) {
        list.add_found(start_fault(sheet, columns, trips, seen, row)?)?;
    }
    Ok(())
}

// The same, if the ids of trips are known.
fn list_known(
    alloc: Global,
    hash_keys: RandomState,
    sheet: &Sheet,
    columns: FrequencyColumns,
    trips: &Option<Texts<'_>>,
    list: &mut FaultList,
) -> Result<(), AllocError>
    requires columns { AreFrequencyColumns sheet.now columns }
    requires trips { IfSome trips.now (λ ids. length ids.keys ≤ 999_999_999) }
    ensures { OnOk result (Adds list.old list.new (start_rows (option_map (λ ids. texts_in ids.keys) trips.now) sheet.now)) }
{
    match trips {
        Some(trips) => {
            let mut seen = IndexSet::with_hasher(alloc, hash_keys);
            list_starts(sheet, columns, trips, &mut seen, list)
        }
        None => Ok(()),
    }
}

/// Lists the faults of frequencies.txt. Rows are tested only if the ids of trips are known.
///
/// It fails only if memory ran out. Keys of rows are looked up under `hash_keys`, which nobody who writes a feed can know.
pub fn list_frequencies(
    alloc: Global,
    hash_keys: RandomState,
    sheet: &Sheet,
    trips: &Option<Texts<'_>>,
    list: &mut FaultList,
) -> Result<(), AllocError>
    requires { IfSome trips.now (λ ids. length ids.keys ≤ 999_999_999) }
    ensures { OnOk result (Adds list.old list.new (frequencies_faults (option_map (λ ids. texts_in ids.keys) trips.now) sheet.now)) }
{
    let columns = frequency_columns(sheet);
    if !are_there(&[columns.trip, columns.start, columns.end, columns.headway]) {
        return list.add_lacking(FeedFile::Frequencies);
    }
    list_known(alloc, hash_keys, sheet, columns, trips, list)?;
    list.add_size(sheet, FeedFile::Frequencies, true)?;
    Ok(())
}
