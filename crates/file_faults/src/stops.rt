//! The faults of stops.txt.

ghost use Rattle.std.specs.Prelude.{◌≡◌, ◌≤◌, ◌++◌, [], ◌∷◌, length, map, option_map, option_to_list, IfOk, IfSome, OnOk};
ghost use Rattle.gtfs_rows.specs.Faults.{first_fault};
ghost use Rattle.gtfs_rows.specs.declared.fault.FeedFile.TheVariants as files;
ghost use Rattle.gtfs_stops.specs.declared.stops.RowKind.TheVariants as row_kinds;
ghost use Rattle.gtfs_rows.specs.Rows.{distinct, rows_of, texts_in};
ghost use Rattle.gtfs_stops.specs.Stops.{AreStopColumns, ids_of_kind, lists_in, stop_id, stop_tests};
ghost use Rattle.file_faults.specs.Lists.{Adds};
ghost use Rattle.file_faults.specs.Tables.{distinct_ids, fits, has_few_ids, ids_known, row_faults, size_test, stops_faults};

use crate::list::{FaultList, fault_of};
use gtfs_rows::{FeedFile, Texts, filled_rows, text_under};
use gtfs_services::calendar::are_there;
use gtfs_stops::StopIds;
use gtfs_stops::stops::{RowKind, STOP_LIMIT, StopColumns, add_ids_of, row_fault, stop_columns};
use gtfs_text::Sheet;
use indexmap::IndexSet;
use std::alloc::{AllocError, Global};
use std::hash::RandomState;

// Lists the fault of each row that fails a test. The ids of all rows join `ids`.
fn list_rows<'a>(
    sheet: &'a Sheet,
    columns: StopColumns,
    stations: &Texts<'a>,
    ids: &mut Texts<'a>,
    list: &mut FaultList,
) -> Result<(), AllocError>
    requires columns { AreStopColumns sheet.now columns }
    requires stations { texts_in stations.now.keys ≡ distinct (ids_of_kind row_kinds.Station sheet.now) }
    requires empty { ids.old.keys ≡ [] }
    ensures list { OnOk result (Adds list.old list.new (row_faults (stop_tests sheet.now) (rows_of sheet.now))) }
    ensures ids { OnOk result (texts_in ids.new.keys ≡ distinct (map (stop_id sheet.now) (rows_of sheet.now))) }
{
    for row in filled_rows(sheet) {
        let is_new = ids.insert(text_under(sheet, columns.id, row))?;
        let kind = row_fault(sheet, columns, stations, is_new, row);
        list.add_found(fault_of(kind, FeedFile::Stops, row))?;
    }
    Ok(())
}

// Lists the faults of rows, and that of the file's size, and says whether it has none of its size. The ids of the file join `ids`.
fn list_ids<'a>(
    sheet: &'a Sheet,
    columns: StopColumns,
    ids: &mut StopIds<'a>,
    list: &mut FaultList,
) -> Result<bool, AllocError>
    requires columns { AreStopColumns sheet.now columns }
    requires all { ids.old.all.keys ≡ [] }
    requires stops { ids.old.stops.keys ≡ [] }
    requires stations { ids.old.stations.keys ≡ [] }
    ensures list { OnOk result (Adds list.old list.new (row_faults (stop_tests sheet.now) (rows_of sheet.now)
        ++ option_to_list (first_fault (size_test files.Stops (has_few_ids sheet.now) sheet.now ∷ [])))) }
    ensures ids { OnOk result (lists_in ids.new ≡ distinct_ids sheet.now) }
    ensures fits { IfOk result (λ small. small ≡ fits (has_few_ids sheet.now) sheet.now) }
{
    add_ids_of(sheet, columns, RowKind::Station, &mut ids.stations)?;
    list_rows(sheet, columns, &ids.stations, &mut ids.all, list)?;
    add_ids_of(sheet, columns, RowKind::Stop, &mut ids.stops)?;
    list.add_size(sheet, FeedFile::Stops, ids.stops.len() <= STOP_LIMIT)
}

/// Lists the faults of stops.txt. It gives the ids of the file, if it can be read as a table.
///
/// It fails only if memory ran out. Ids are looked up under `hash_keys`, which nobody who writes a feed can know.
pub fn list_stops<'a>(
    alloc: Global,
    hash_keys: RandomState,
    sheet: &'a Sheet,
    list: &mut FaultList,
) -> Result<Option<StopIds<'a>>, AllocError>
    ensures list { OnOk result (Adds list.old list.new (stops_faults sheet.now)) }
    ensures ids { IfOk result (λ ids. option_map lists_in ids ≡ ids_known sheet.now) }
    ensures few { IfOk result (λ ids. IfSome ids (λ ids. length ids.stops.keys ≤ 1_000_000)) }
    ensures few_stations { IfOk result (λ ids. IfSome ids (λ ids. length ids.stations.keys ≤ 999_999_999)) }
{
    let columns = stop_columns(sheet);
    if !are_there(&[columns.id]) {
        list.add_lacking(FeedFile::Stops)?;
        return Ok(None);
    }
    let mut ids = StopIds {
        all: IndexSet::with_hasher(alloc, hash_keys),
        stops: IndexSet::with_hasher(alloc, hash_keys),
        stations: IndexSet::with_hasher(alloc, hash_keys),
    };
    let fits = list_ids(sheet, columns, &mut ids, list)?;
    Ok(fits.then_some(ids))
}
