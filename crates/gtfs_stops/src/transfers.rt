//! transfers.txt.

ghost use Rattle.std.specs.Prelude.{◌≡◌, ℕ, ◌<◌, ◌≤◌, ◌&&◌, ◌||◌, not, length, option_map, is_some, IfOk, IfSome};
ghost use Rattle.std.specs.List.{All, flat_map};
ghost use Rattle.gtfs_text.specs.Sheets.{table_of};
ghost use Rattle.gtfs_rows.specs.declared.fault.FeedFile.TheVariants as files;
ghost use Rattle.gtfs_rows.specs.Faults.{Answers, fault_at, first_fault};
ghost use Rattle.gtfs_rows.specs.Rows.{rows_of};
ghost use Rattle.gtfs_stops.specs.Stops.{lists_in};
ghost use Rattle.gtfs_stops.specs.Transfers.{IsTransfer, IsPlace, AreTransferColumns, is_between_places, is_in_seat, is_of_trips, is_short_or_empty, kept_transfer, place_of, short_time, skipped_transfers, found_tests, place_tests, transfer_between, transfer_tests, transfer_values, transfers_tests, type_of, type_text};

use crate::stops::StopIds;
use gtfs_rows::{
    FaultKind, FeedFault, FeedFile, Place, ROW_LIMIT, Transfer, TransferType, filled_rows,
    text_under,
};
use gtfs_text::{Sheet, whole};
use std::alloc::Global;

/// The transfers that are kept, and how many rows were skipped.
#[derive(Drop)]
pub struct TransferRows {
    pub transfers: Vec<Transfer>,
    pub skipped: usize,
}

/// Where the columns of transfers.txt are.
#[derive(Clone, Copy)]
pub struct TransferColumns {
    pub from: Option<usize>,
    pub to: Option<usize>,
    pub transfer_type: Option<usize>,
    pub min_transfer_time: Option<usize>,
    pub from_route: Option<usize>,
    pub to_route: Option<usize>,
    pub from_trip: Option<usize>,
    pub to_trip: Option<usize>,
}

/// Looks for the columns in the header.
pub fn transfer_columns(sheet: &Sheet) -> TransferColumns
    ensures { AreTransferColumns sheet.now result }
{
    TransferColumns {
        from: sheet.column("from_stop_id"),
        to: sheet.column("to_stop_id"),
        transfer_type: sheet.column("transfer_type"),
        min_transfer_time: sheet.column("min_transfer_time"),
        from_route: sheet.column("from_route_id"),
        to_route: sheet.column("to_route_id"),
        from_trip: sheet.column("from_trip_id"),
        to_trip: sheet.column("to_trip_id"),
    }
}

// The type that a transfer_type says, of those between stops.
fn type_of(text: &str) -> Option<TransferType>
    ensures { result ≡ type_of text.now }
{
    if text.is_empty() || text == "0" {
        Some(TransferType::Recommended)
    } else if text == "1" {
        Some(TransferType::Timed)
    } else if text == "2" {
        Some(TransferType::MinimumTime)
    } else if text == "3" {
        Some(TransferType::NotPossible)
    } else {
        None
    }
}

// Whether a transfer_type is one between trips.
fn is_in_seat(text: &str) -> bool
    ensures { result ≡ is_in_seat text.now }
{
    text == "4" || text == "5"
}

// Whether a row names a route or a trip.
fn is_of_trips(sheet: &Sheet, columns: TransferColumns, row: usize) -> bool
    requires row { row < length sheet.now }
    requires columns { AreTransferColumns sheet.now columns }
    ensures { result ≡ is_of_trips sheet.now row }
{
    !(text_under(sheet, columns.from_route, row).is_empty()
        && text_under(sheet, columns.to_route, row).is_empty()
        && text_under(sheet, columns.from_trip, row).is_empty()
        && text_under(sheet, columns.to_trip, row).is_empty())
}

// The type of a row that is about only two places.
fn type_between_places(sheet: &Sheet, columns: TransferColumns, row: usize) -> Option<TransferType>
    requires row { row < length sheet.now }
    requires columns { AreTransferColumns sheet.now columns }
    ensures some { is_some result ≡ is_between_places sheet.now row }
    ensures value { IfSome result (λ kind. type_of (type_text sheet.now row) ≡ Some kind) }
{
    let kind = type_of(text_under(sheet, columns.transfer_type, row))?;
    if is_of_trips(sheet, columns, row) {
        None
    } else {
        Some(kind)
    }
}

// The stop or the station of an id.
fn place_of(ids: &StopIds<'_>, id: &str) -> Option<Place>
    requires stops { length ids.now.stops.keys ≤ 1_000_000 }
    requires stations { length ids.now.stations.keys ≤ 999_999_999 }
    ensures value { result ≡ place_of (lists_in ids.now) id.now }
    ensures known { IfSome result (IsPlace (length ids.now.stops.keys) (length ids.now.stations.keys)) }
{
    if let Some(number) = ids.stops.get_index_of(id) {
        return Some(Place::Stop(number as u32));
    }
    match ids.stations.get_index_of(id) {
        Some(number) => Some(Place::Station(number as u32)),
        None => None,
    }
}

// The seconds of a min_transfer_time: at most a day.
fn short_time(text: &str) -> Option<u32>
    ensures value { result ≡ short_time text.now }
    ensures short { IfSome result (λ seconds. seconds ≤ 86_400) }
{
    match whole(text) {
        Some(seconds) => {
            if seconds <= 86_400 {
                Some(seconds)
            } else {
                None
            }
        }
        None => None,
    }
}

fn is_short_or_empty(text: &str) -> bool
    ensures { result ≡ is_short_or_empty text.now }
{
    text.is_empty() || short_time(text).is_some()
}

// Whether both ids name a stop or a station.
fn joins_places(ids: &StopIds<'_>, from: &str, to: &str) -> bool
    requires stops { length ids.now.stops.keys ≤ 1_000_000 }
    requires stations { length ids.now.stations.keys ≤ 999_999_999 }
    ensures { result ≡ (is_some (place_of (lists_in ids.now) from.now) && is_some (place_of (lists_in ids.now) to.now)) }
{
    place_of(ids, from).is_some() && place_of(ids, to).is_some()
}

// Whether a min_transfer_time is one that a row may have.
fn time_stands(joins_places: bool, text: &str) -> bool
    ensures { result ≡ (not joins_places || is_short_or_empty text.now) }
{
    !joins_places || is_short_or_empty(text)
}

// What is wrong with the places or the time of a row, by what was found of them.
fn first_wrong(knows_from: bool, knows_to: bool, time_stands: bool) -> Option<FaultKind>
    ensures { (row : ℕ) → option_map (λ kind. fault_at kind files.Transfers row) result
        ≡ first_fault (found_tests row knows_from knows_to time_stands) }
{
    if !knows_from || !knows_to {
        Some(FaultKind::UnknownReference)
    } else if !time_stands {
        Some(FaultKind::BadField)
    } else {
        None
    }
}

// What is wrong with the places or the time of a row that is about only two places.
fn place_fault(
    sheet: &Sheet,
    columns: TransferColumns,
    ids: &StopIds<'_>,
    row: usize,
) -> Option<FaultKind>
    requires row { row < length sheet.now }
    requires columns { AreTransferColumns sheet.now columns }
    requires stops { length ids.now.stops.keys ≤ 1_000_000 }
    requires stations { length ids.now.stations.keys ≤ 999_999_999 }
    ensures { option_map (λ kind. fault_at kind files.Transfers row) result ≡ first_fault (place_tests (lists_in ids.now) sheet.now row) }
{
    let from = text_under(sheet, columns.from, row);
    let to = text_under(sheet, columns.to, row);
    let joins = joins_places(ids, from, to);
    let stands = time_stands(joins, text_under(sheet, columns.min_transfer_time, row));
    first_wrong(ids.all.contains(from), ids.all.contains(to), stands)
}

/// What is wrong with a row of transfers.txt.
pub fn row_fault(
    sheet: &Sheet,
    columns: TransferColumns,
    ids: &StopIds<'_>,
    row: usize,
) -> Option<FaultKind>
    requires row { row < length sheet.now }
    requires columns { AreTransferColumns sheet.now columns }
    requires stops { length ids.now.stops.keys ≤ 1_000_000 }
    requires stations { length ids.now.stations.keys ≤ 999_999_999 }
    ensures { option_map (λ kind. fault_at kind files.Transfers row) result
        ≡ first_fault (transfer_tests (lists_in ids.now) sheet.now row) }
{
    let text = text_under(sheet, columns.transfer_type, row);
    let stands = type_of(text).is_some() || is_in_seat(text);
    if !stands {
        return Some(FaultKind::BadField);
    }
    match type_between_places(sheet, columns, row) {
        Some(_) => place_fault(sheet, columns, ids, row),
        None => None,
    }
}

// A transfer between two places, if they are there.
fn transfer_between(
    from: Option<Place>,
    to: Option<Place>,
    transfer_type: TransferType,
    min_transfer_time: Option<u32>,
) -> Option<Transfer>
    ensures value { result ≡ transfer_between from to (Some transfer_type) min_transfer_time }
    ensures parts { IfSome result (λ transfer. (from ≡ Some transfer.from) × (to ≡ Some transfer.to)
        × (min_transfer_time ≡ transfer.min_transfer_time)) }
{
    match (from, to) {
        (Some(from), Some(to)) => Some(Transfer {
            from,
            to,
            transfer_type,
            min_transfer_time,
        }),
        _ => None,
    }
}

// The transfer of a row: none if the row is skipped.
fn kept_row(
    sheet: &Sheet,
    columns: TransferColumns,
    ids: &StopIds<'_>,
    row: usize,
) -> Option<Transfer>
    requires row { row < length sheet.now }
    requires columns { AreTransferColumns sheet.now columns }
    requires stops { length ids.now.stops.keys ≤ 1_000_000 }
    requires stations { length ids.now.stations.keys ≤ 999_999_999 }
    ensures value { result ≡ kept_transfer (lists_in ids.now) sheet.now row }
    ensures valid { IfSome result (IsTransfer (length ids.now.stops.keys) (length ids.now.stations.keys)) }
{
    let from = place_of(ids, text_under(sheet, columns.from, row));
    let to = place_of(ids, text_under(sheet, columns.to, row));
    let time = short_time(text_under(sheet, columns.min_transfer_time, row));
    match type_between_places(sheet, columns, row) {
        Some(transfer_type) => transfer_between(from, to, transfer_type, time),
        None => None,
    }
}

// The rows that are kept, if each passes its tests, and how many were skipped.
fn read_rows(
    alloc: Global,
    sheet: &Sheet,
    columns: TransferColumns,
    ids: &StopIds<'_>,
) -> Result<TransferRows, FeedFault>
    requires columns { AreTransferColumns sheet.now columns }
    requires stops { length ids.now.stops.keys ≤ 1_000_000 }
    requires stations { length ids.now.stations.keys ≤ 999_999_999 }
    ensures transfers { Answers (λ rows. rows.transfers.items) result
        (flat_map (transfer_tests (lists_in ids.now) sheet.now) (rows_of sheet.now)) (transfer_values (lists_in ids.now) sheet.now) }
    ensures skipped { IfOk result (λ rows. rows.skipped ≡ skipped_transfers (lists_in ids.now) sheet.now) }
    ensures valid { IfOk result (λ rows. All (IsTransfer (length ids.now.stops.keys) (length ids.now.stations.keys)) rows.transfers.items) }
{
    let mut transfers = Vec::new(alloc);
    let mut skipped = 0;
    for row in filled_rows(sheet) {
        if let Some(kind) = row_fault(sheet, columns, ids, row) {
            return Err(FeedFault::new(kind, FeedFile::Transfers, row));
        }
        match kept_row(sheet, columns, ids, row) {
            Some(transfer) => transfers.push(transfer)?,
            None => skipped += 1,
        }
    }
    Ok(TransferRows { transfers, skipped })
}

/// The rows of transfers.txt that are kept, if each of its tests holds. Stops and stations are numbered as these ids are.
pub fn read_transfers(
    alloc: Global,
    sheet: &Sheet,
    ids: &StopIds<'_>,
) -> Result<TransferRows, FeedFault>
    requires stops { length ids.now.stops.keys ≤ 1_000_000 }
    requires stations { length ids.now.stations.keys ≤ 999_999_999 }
    ensures transfers { Answers (λ rows. rows.transfers.items) result (transfers_tests (lists_in ids.now) sheet.now)
        (transfer_values (lists_in ids.now) sheet.now) }
    ensures skipped { IfOk result (λ rows. rows.skipped ≡ skipped_transfers (lists_in ids.now) sheet.now) }
    ensures valid { IfOk result (λ rows. All (IsTransfer (length ids.now.stops.keys) (length ids.now.stations.keys)) rows.transfers.items) }
    ensures few { IfOk result (λ rows. length rows.transfers.items ≤ 999_999_999) }
{
    let columns = transfer_columns(sheet);
    if columns.from.is_none() || columns.to.is_none() {
        return Err(FeedFault::new(FaultKind::MissingColumn, FeedFile::Transfers, 0));
    }
    let rows = read_rows(alloc, sheet, columns, ids)?;
    if sheet.rows() > ROW_LIMIT {
        return Err(FeedFault::new(FaultKind::TooMany, FeedFile::Transfers, 0));
    }
    Ok(rows)
}
