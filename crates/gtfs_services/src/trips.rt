//! trips.txt.

ghost use Rattle.std.specs.Prelude.{◌≡◌, ◌<◌, ◌≤◌, [], length, map, option_map, IfOk, OnOk};
ghost use Rattle.std.specs.List.{flat_map, All};
ghost use Rattle.gtfs_text.specs.Sheets.{row_count};
ghost use Rattle.gtfs_rows.specs.declared.fault.FeedFile.TheVariants as files;
ghost use Rattle.gtfs_rows.specs.Faults.{Answers, Passes, fault_at, first_fault};
ghost use Rattle.gtfs_rows.specs.Rows.{has_new_key, rows_of, texts_in};
ghost use Rattle.gtfs_services.specs.Trips.{trip_id, trip_ids, trip_tests, trips_tests, trip_values, service_values, AreTripColumns};

use gtfs_rows::{
    FaultKind, FeedFault, FeedFile, Id, ROW_LIMIT, Texts, Trip, filled_rows, text_under,
};
use gtfs_text::Sheet;
use indexmap::IndexSet;
use std::alloc::{AllocError, Global};
use std::hash::RandomState;

/// What is kept of trips.txt.
#[derive(Drop)]
pub struct TripRows<'a> {
    /// The trips, in file order.
    pub trips: Vec<Trip>,
    /// The services that trips name, each once, in the order of their first trips: a trip's `service` is an index here.
    pub services: Vec<Id>,
    /// The ids of the trips, to look a trip up by: the index of an id is the number of its trip.
    pub ids: Texts<'a>,
}

/// Where the columns of trips.txt are.
#[derive(Clone, Copy)]
pub struct TripColumns {
    pub id: Option<usize>,
    pub service: Option<usize>,
}

/// Looks for the columns in the header.
pub fn trip_columns(sheet: &Sheet) -> TripColumns
    ensures { AreTripColumns sheet.now result }
{
    TripColumns {
        id: sheet.column("trip_id"),
        service: sheet.column("service_id"),
    }
}

/// What is wrong with a row of trips.txt, whose id is new or isn't.
pub fn row_fault(sheet: &Sheet, columns: TripColumns, is_new: bool, row: usize) -> Option<FaultKind>
    requires row { row < length sheet.now }
    requires columns { AreTripColumns sheet.now columns }
    requires is_new { is_new ≡ has_new_key sheet.now (trip_id sheet.now) row }
    ensures { option_map (λ kind. fault_at kind files.Trips row) result ≡ first_fault (trip_tests sheet.now row) }
{
    if text_under(sheet, columns.id, row).is_empty() {
        Some(FaultKind::BadField)
    } else if !is_new {
        Some(FaultKind::DuplicateKey)
    } else if text_under(sheet, columns.service, row).is_empty() {
        Some(FaultKind::BadField)
    } else {
        None
    }
}

// Tests the columns, each row and how many there are. The ids of the rows join `ids`.
fn test_rows<'a>(
    sheet: &'a Sheet,
    columns: TripColumns,
    ids: &mut Texts<'a>,
) -> Result<(), FeedFault>
    requires columns { AreTripColumns sheet.now columns }
    requires empty { ids.old.keys ≡ [] }
    ensures tests { Passes result (trips_tests sheet.now) }
    ensures ids { OnOk result (texts_in ids.new.keys ≡ trip_ids sheet.now) }
    ensures few { OnOk result (row_count sheet.now ≤ 999_999_999) }
{
    if columns.id.is_none() || columns.service.is_none() {
        return Err(FeedFault::new(FaultKind::MissingColumn, FeedFile::Trips, 0));
    }
    for row in filled_rows(sheet) {
        let is_new = ids.insert(text_under(sheet, columns.id, row))?;
        if let Some(kind) = row_fault(sheet, columns, is_new, row) {
            return Err(FeedFault::new(kind, FeedFile::Trips, row));
        }
    }
    if sheet.rows() > ROW_LIMIT {
        return Err(FeedFault::new(FaultKind::TooMany, FeedFile::Trips, 0));
    }
    Ok(())
}

// The trips. The texts of services join `services`, in which a service's number is its index.
fn keep_trips<'a>(
    alloc: Global,
    sheet: &'a Sheet,
    columns: TripColumns,
    services: &mut Texts<'a>,
) -> Result<Vec<Trip>, AllocError>
    requires columns { AreTripColumns sheet.now columns }
    requires few { row_count sheet.now ≤ 999_999_999 }
    requires empty { services.old.keys ≡ [] }
    ensures trips { IfOk result (λ trips. trips.items ≡ trip_values sheet.now) }
    ensures services { OnOk result (texts_in services.new.keys ≡ service_values sheet.now) }
{
    let mut trips = Vec::new(alloc);
    for row in filled_rows(sheet) {
        let id = Id::new(alloc, text_under(sheet, columns.id, row))?;
        let (number, _) = services.insert_full(text_under(sheet, columns.service, row))?;
        trips.push(Trip {
            id,
            service: number as u32,
        })?;
    }
    Ok(trips)
}

// The ids of services.
fn keep_services(alloc: Global, services: &Texts<'_>) -> Result<Vec<Id>, AllocError>
    ensures { IfOk result (λ ids. ids.items ≡ texts_in services.now.keys) }
{
    let mut ids = Vec::new(alloc);
    for service in services.iter() {
        ids.push(Id::new(alloc, service)?)?;
    }
    Ok(ids)
}

// The trips, and their services.
fn keep_rows(
    alloc: Global,
    hash_keys: RandomState,
    sheet: &Sheet,
    columns: TripColumns,
) -> Result<(Vec<Trip>, Vec<Id>), AllocError>
    requires columns { AreTripColumns sheet.now columns }
    requires few { row_count sheet.now ≤ 999_999_999 }
    ensures trips { IfOk result (λ rows. rows.0.items ≡ trip_values sheet.now) }
    ensures services { IfOk result (λ rows. rows.1.items ≡ service_values sheet.now) }
{
    let mut services = IndexSet::with_hasher(alloc, hash_keys);
    let trips = keep_trips(alloc, sheet, columns, &mut services)?;
    Ok((trips, keep_services(alloc, &services)?))
}

/// Reads trips.txt (GTFS Schedule reference, trips.txt): each row that isn't blank is a trip. Rows are counted from 1.
///
/// The error is the first of these, with its row: `MissingColumn`, row 0, if there is no column `trip_id` or no
/// `service_id`; then row by row `BadField` for an empty `trip_id`, `DuplicateKey` for one that an earlier row has, and
/// `BadField` for an empty `service_id`; then `TooMany`, row 0, for more than 999,999,999 rows, blank ones among them.
/// `Memory` can come in place of any answer. Texts are looked up under `hash_keys`, which nobody who writes a feed can know.
pub fn read_trips(
    alloc: Global,
    hash_keys: RandomState,
    sheet: &Sheet,
) -> Result<TripRows<'_>, FeedFault>
    ensures trips { Answers (λ rows. rows.trips.items) result (trips_tests sheet.now) (trip_values sheet.now) }
    ensures services { IfOk result (λ rows. rows.services.items ≡ service_values sheet.now) }
    ensures ids { IfOk result (λ rows. texts_in rows.ids.keys ≡ trip_ids sheet.now) }
    ensures few { IfOk result (λ rows. length rows.trips.items ≤ 999_999_999) }
    ensures trip_ids { IfOk result (λ rows. length rows.ids.keys ≡ length rows.trips.items) }
    ensures known { IfOk result (λ rows. All (λ trip. trip.service < length rows.services.items) rows.trips.items) }
{
    let columns = trip_columns(sheet);
    let mut ids = IndexSet::with_hasher(alloc, hash_keys);
    test_rows(sheet, columns, &mut ids)?;
    let (trips, services) = keep_rows(alloc, hash_keys, sheet, columns)?;
    Ok(TripRows {
        trips,
        services,
        ids,
    })
}
