//! Names of stops, trips and routes.

ghost use Rattle.std.specs.Prelude.{◌≡◌, ◌<◌, ℕ, List, IfOk, length, string_bytes};
ghost use Rattle.std.specs.List.{AllZip};
ghost use Rattle.gtfs_text.specs.Sheets.{Table, column_of};
ghost use Rattle.feed_names.specs.Rows.{first_row_in, row_of, text_at};
ghost use Rattle.feed_names.specs.Texts.{IsNamed};

use crate::rows::first_rows;
use gtfs_text::Sheet;
use std::alloc::{AllocError, Global};
use std::collections::BTreeMap;

// What a row has in the column of that name: nothing if there is no such column.
fn text_at(alloc: Global, sheet: &Sheet, row: usize, name: &str) -> Result<String, AllocError>
    requires { row < length sheet.now }
    ensures { IfOk result (λ text. string_bytes text ≡ text_at sheet.now row name.now) }
{
    match sheet.column(name) {
        Some(column) => String::from_str(alloc, sheet.field(row, column)),
        None => Ok(String::new(alloc)),
    }
}

/// What a row of a file says to people of the thing that it is about.
pub trait NamedRow: Sized + Drop {
    ghost key: { List ℕ };

    ghost tells: { Table → ℕ → Self → Type 0 };

    /// The column of its id.
    fn key() -> &'static str
        ensures { result.now ≡ key };

    fn of_row(alloc: Global, sheet: &Sheet, row: usize) -> Result<Self, AllocError>
        requires { row < length sheet.now }
        ensures { IfOk result (tells sheet.now row) };
}

/// What stops.txt says to people of a stop or a station: each text is empty if the feed has none.
#[derive(Drop)]
pub struct StopName {
    /// `stop_name`.
    pub name: String,
    /// `platform_code`.
    pub platform: String,
    /// `stop_lat`, in degrees, as it is written.
    pub latitude: String,
    /// `stop_lon`, in degrees, as it is written.
    pub longitude: String,
}

impl NamedRow for StopName {
    ghost use Rattle.std.specs.Prelude.{codes};
    ghost use Rattle.feed_names.specs.Texts.{IsStopName};

    ghost key = { codes "stop_id" };

    ghost tells = { IsStopName };

    fn key() -> &'static str {
        "stop_id"
    }

    fn of_row(alloc: Global, sheet: &Sheet, row: usize) -> Result<StopName, AllocError> {
        Ok(StopName {
            name: text_at(alloc, sheet, row, "stop_name")?,
            platform: text_at(alloc, sheet, row, "platform_code")?,
            latitude: text_at(alloc, sheet, row, "stop_lat")?,
            longitude: text_at(alloc, sheet, row, "stop_lon")?,
        })
    }
}

/// What trips.txt says to people of a trip: each text is empty if the feed has none.
#[derive(Drop)]
pub struct TripName {
    /// `route_id`.
    pub route: String,
    /// `trip_headsign`: where the trip goes.
    pub headsign: String,
    /// `trip_short_name`, as the number of a train.
    pub short_name: String,
}

impl NamedRow for TripName {
    ghost use Rattle.std.specs.Prelude.{codes};
    ghost use Rattle.feed_names.specs.Texts.{IsTripName};

    ghost key = { codes "trip_id" };

    ghost tells = { IsTripName };

    fn key() -> &'static str {
        "trip_id"
    }

    fn of_row(alloc: Global, sheet: &Sheet, row: usize) -> Result<TripName, AllocError> {
        Ok(TripName {
            route: text_at(alloc, sheet, row, "route_id")?,
            headsign: text_at(alloc, sheet, row, "trip_headsign")?,
            short_name: text_at(alloc, sheet, row, "trip_short_name")?,
        })
    }
}

/// What routes.txt says to people of a route: each text is empty if the feed has none.
#[derive(Drop)]
pub struct RouteName {
    /// `route_short_name`, as the number of a bus.
    pub short_name: String,
    /// `route_long_name`.
    pub long_name: String,
}

impl NamedRow for RouteName {
    ghost use Rattle.std.specs.Prelude.{codes};
    ghost use Rattle.feed_names.specs.Texts.{IsRouteName};

    ghost key = { codes "route_id" };

    ghost tells = { IsRouteName };

    fn key() -> &'static str {
        "route_id"
    }

    fn of_row(alloc: Global, sheet: &Sheet, row: usize) -> Result<RouteName, AllocError> {
        Ok(RouteName {
            short_name: text_at(alloc, sheet, row, "route_short_name")?,
            long_name: text_at(alloc, sheet, row, "route_long_name")?,
        })
    }
}

// What a file says to people of an id, by the rows of ids.
fn name_of<T: NamedRow>(
    alloc: Global,
    sheet: &Sheet,
    rows: &BTreeMap<&str, usize>,
    id: &str,
) -> Result<Option<T>, AllocError>
    requires { row_of rows.now id.now ≡ first_row_in sheet.now (column_of sheet.now T.key) id.now }
    ensures { IfOk result (IsNamed T.tells sheet.now T.key id.now) }
{
    match rows.get(id) {
        Some(row) => Ok(Some(T::of_row(alloc, sheet, *row)?)),
        None => Ok(None),
    }
}

/// What a file says to people of each of these ids, by the first row that has the id. None if no row has it, or if the file has no column
/// for ids. It fails only if memory runs out.
pub fn names_of<T: NamedRow>(
    alloc: Global,
    sheet: &Sheet,
    ids: &[&str],
) -> Result<Vec<Option<T>>, AllocError>
    ensures { IfOk result (λ names. AllZip (λ id name. IsNamed T.tells sheet.now T.key id.now name) ids.now names.items) }
{
    let rows = first_rows(alloc, sheet, T::key(), ids)?;
    let mut names = Vec::with_capacity(alloc, ids.len())?;
    for id in ids {
        names.push(name_of(alloc, sheet, &rows, id)?)?;
    }
    Ok(names)
}
