//! What the files of names say of ids.

use crate::texts::{NamedRow, RouteName, TripName, names_of};
use gtfs_text::Sheet;
use std::alloc::{AllocError, Global};
use std::collections::{BTreeMap, BTreeSet};

// Puts in what is said of each of these ids, if anything is.
fn put_names<T: NamedRow>(
    alloc: Global,
    table: &mut BTreeMap<String, T>,
    ids: &[&str],
    names: Vec<Option<T>>,
) -> Result<(), AllocError> {
    let mut names = names.into_iter();
    for id in ids {
        if let Some(Some(name)) = names.next() {
            table.insert(String::from_str(alloc, id)?, name)?;
        }
    }
    Ok(())
}

/// What a file says to people of each of these ids. It fails only if memory runs out.
pub(crate) fn table_of<T: NamedRow>(
    alloc: Global,
    sheet: &Option<Sheet>,
    ids: &[&str],
) -> Result<BTreeMap<String, T>, AllocError> {
    let mut table = BTreeMap::new(alloc);
    if let Some(sheet) = sheet {
        put_names(alloc, &mut table, ids, names_of(alloc, sheet, ids)?)?;
    }
    Ok(table)
}

/// The ids of all rows of a file. It fails only if memory runs out.
pub(crate) fn ids_of<T: NamedRow>(
    alloc: Global,
    sheet: &Option<Sheet>,
) -> Result<Vec<&str>, AllocError> {
    let mut ids = Vec::new(alloc);
    if let Some(sheet) = sheet
        && let Some(column) = sheet.column(T::key())
    {
        for before in 0..sheet.rows() {
            ids.push(sheet.field(before + 1, column))?;
        }
    }
    Ok(ids)
}

// The ids of the routes of these trips, each once.
fn routes_of(alloc: Global, trips: &BTreeMap<String, TripName>) -> Result<Vec<&str>, AllocError> {
    let mut ids = BTreeSet::new(alloc);
    for trip in trips.values() {
        ids.insert(trip.route.as_str())?;
    }
    ids.into_iter().collect(alloc)
}

/// What a file says to people of the routes of these trips. It fails only if memory runs out.
pub(crate) fn route_table(
    alloc: Global,
    sheet: &Option<Sheet>,
    trips: &BTreeMap<String, TripName>,
) -> Result<BTreeMap<String, RouteName>, AllocError> {
    table_of(alloc, sheet, &routes_of(alloc, trips)?)
}
