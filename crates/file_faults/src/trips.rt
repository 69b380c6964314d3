//! The faults of trips.txt.

ghost use Rattle.std.specs.Prelude.{◌≡◌, ◌≤◌, ◌++◌, [], ◌∷◌, true, length, option_map, option_to_list, IfOk, IfSome, OnOk};
ghost use Rattle.gtfs_rows.specs.Faults.{first_fault};
ghost use Rattle.gtfs_rows.specs.declared.fault.FeedFile.TheVariants as files;
ghost use Rattle.gtfs_rows.specs.Rows.{distinct, rows_of, texts_in};
ghost use Rattle.gtfs_services.specs.Trips.{AreTripColumns, trip_ids, trip_tests};
ghost use Rattle.file_faults.specs.Lists.{Adds};
ghost use Rattle.file_faults.specs.Tables.{fits, row_faults, size_test, trips_faults, trips_known};

use crate::list::{FaultList, fault_of};
use gtfs_rows::{FeedFile, Texts, filled_rows, text_under};
use gtfs_services::calendar::are_there;
use gtfs_services::trips::{TripColumns, row_fault, trip_columns};
use gtfs_text::Sheet;
use indexmap::IndexSet;
use std::alloc::{AllocError, Global};
use std::hash::RandomState;

// Lists the fault of each row that fails a test. The ids of all rows join `ids`.
fn list_rows<'a>(
    sheet: &'a Sheet,
    columns: TripColumns,
    ids: &mut Texts<'a>,
    list: &mut FaultList,
) -> Result<(), AllocError>
    requires columns { AreTripColumns sheet.now columns }
    requires empty { ids.old.keys ≡ [] }
    ensures list { OnOk result (Adds list.old list.new (row_faults (trip_tests sheet.now) (rows_of sheet.now))) }
    ensures ids { OnOk result (texts_in ids.new.keys ≡ distinct (trip_ids sheet.now)) }
{
    for row in filled_rows(sheet) {
        let is_new = ids.insert(text_under(sheet, columns.id, row))?;
        let kind = row_fault(sheet, columns, is_new, row);
        list.add_found(fault_of(kind, FeedFile::Trips, row))?;
    }
    Ok(())
}

// Lists the faults of rows, and that of the file's size, and says whether it has none of its size. The ids of the file join `ids`.
fn list_ids<'a>(
    sheet: &'a Sheet,
    columns: TripColumns,
    ids: &mut Texts<'a>,
    list: &mut FaultList,
) -> Result<bool, AllocError>
    requires columns { AreTripColumns sheet.now columns }
    requires empty { ids.old.keys ≡ [] }
    ensures list { OnOk result (Adds list.old list.new (row_faults (trip_tests sheet.now) (rows_of sheet.now)
        ++ option_to_list (first_fault (size_test files.Trips true sheet.now ∷ [])))) }
    ensures ids { OnOk result (texts_in ids.new.keys ≡ distinct (trip_ids sheet.now)) }
    ensures fits { IfOk result (λ small. small ≡ fits true sheet.now) }
{
    list_rows(sheet, columns, ids, list)?;
    list.add_size(sheet, FeedFile::Trips, true)
}

/// Lists the faults of trips.txt. It gives the ids of the file, if it can be read as a table.
///
/// It fails only if memory ran out. Ids are looked up under `hash_keys`, which nobody who writes a feed can know.
pub fn list_trips<'a>(
    alloc: Global,
    hash_keys: RandomState,
    sheet: &'a Sheet,
    list: &mut FaultList,
) -> Result<Option<Texts<'a>>, AllocError>
    ensures list { OnOk result (Adds list.old list.new (trips_faults sheet.now)) }
    ensures ids { IfOk result (λ ids. option_map (λ ids. texts_in ids.keys) ids ≡ trips_known sheet.now) }
    ensures few { IfOk result (λ ids. IfSome ids (λ ids. length ids.keys ≤ 999_999_999)) }
{
    let columns = trip_columns(sheet);
    if !are_there(&[columns.id, columns.service]) {
        list.add_lacking(FeedFile::Trips)?;
        return Ok(None);
    }
    let mut ids = IndexSet::with_hasher(alloc, hash_keys);
    let fits = list_ids(sheet, columns, &mut ids, list)?;
    Ok(fits.then_some(ids))
}
