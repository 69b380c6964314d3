//! stops.txt.

ghost use Rattle.std.specs.Prelude.{◌≡◌, ◌<◌, ◌≤◌, [], length, map, option_map, IfOk, OnOk};
ghost use Rattle.std.specs.Option.{IfSome};
ghost use Rattle.std.specs.List.{flat_map, All};
ghost use Rattle.gtfs_rows.specs.declared.fault.FeedFile.TheVariants as files;
ghost use Rattle.gtfs_stops.specs.declared.stops.RowKind.TheVariants as row_kinds;
ghost use Rattle.gtfs_rows.specs.Faults.{Answers, Passes, fault_at, first_fault};
ghost use Rattle.gtfs_rows.specs.Rows.{has_new_key, rows_of, distinct, number_in, texts_in, AreApart};
ghost use Rattle.gtfs_stops.specs.Stops.{means_stop, means, parent_stands, stop_id, ids_of_kind, rows_of_kind, stop_among, station_of, stop_values, station_values, stop_tests, stops_tests, AreStopColumns, AreStopIds};

use gtfs_rows::{
    FaultKind, FeedFault, FeedFile, Id, ROW_LIMIT, Station, Stop, Texts, filled_rows, text_under,
};
use gtfs_text::Sheet;
use indexmap::IndexSet;
use std::alloc::{AllocError, Global};
use std::hash::RandomState;

/// The most stops that a feed may have.
pub const STOP_LIMIT: usize = 1_000_000;

/// The rows of stops.txt that are kept, and what its ids name.
#[derive(Drop)]
pub struct StopRows<'a> {
    pub stops: Vec<Stop>,
    pub stations: Vec<Station>,
    pub ids: StopIds<'a>,
}

/// The ids of stops.txt: those of all rows, and those of stops and of stations, which are numbered alike.
pub struct StopIds<'a> {
    pub all: Texts<'a>,
    pub stops: Texts<'a>,
    pub stations: Texts<'a>,
}

// A drop by hand is one call at each exit of a function that holds the value. A derived one is many (docs/CHECKING.md).
impl Drop for StopIds<'_> {
    fn drop(self) {
        let StopIds {
            all: _,
            stops: _,
            stations: _,
        } = self;
    }
}

/// Where the columns of stops.txt are.
#[derive(Clone, Copy)]
pub struct StopColumns {
    pub id: Option<usize>,
    pub location_type: Option<usize>,
    pub parent: Option<usize>,
}

/// The kinds of rows that are kept.
#[derive(Clone, Copy)]
pub enum RowKind {
    Stop,
    Station,
}

/// Looks for the columns in the header.
pub fn stop_columns(sheet: &Sheet) -> StopColumns
    ensures { AreStopColumns sheet.now result }
{
    StopColumns {
        id: sheet.column("stop_id"),
        location_type: sheet.column("location_type"),
        parent: sheet.column("parent_station"),
    }
}

// Whether a location_type is that of a stop.
fn means_stop(text: &str) -> bool
    ensures { result ≡ means_stop text.now }
{
    text.is_empty() || text == "0"
}

// Whether a location_type is that of rows of this kind.
fn means(kind: RowKind, text: &str) -> bool
    ensures { result ≡ means kind text.now }
{
    match kind {
        RowKind::Stop => means_stop(text),
        RowKind::Station => text == "1",
    }
}

/// Adds the ids of the rows of a kind, in the whole file, each once.
pub fn add_ids_of<'a>(
    sheet: &'a Sheet,
    columns: StopColumns,
    kind: RowKind,
    ids: &mut Texts<'a>,
) -> Result<(), AllocError>
    requires columns { AreStopColumns sheet.now columns }
    requires empty { ids.old.keys ≡ [] }
    ensures { OnOk result (texts_in ids.new.keys ≡ distinct (ids_of_kind kind sheet.now)) }
{
    for row in filled_rows(sheet) {
        if means(kind, text_under(sheet, columns.location_type, row)) {
            ids.insert(text_under(sheet, columns.id, row))?;
        }
    }
    Ok(())
}

// Whether a parent_station is one that a row may name.
fn parent_stands(is_stop: bool, parent: &str, stations: &Texts<'_>) -> bool
    ensures { result ≡ parent_stands is_stop parent.now (texts_in stations.now.keys) }
{
    !is_stop || parent.is_empty() || stations.contains(parent)
}

/// What is wrong with a row of stops.txt, whose id is new or isn't. Its parent_station is looked up among the ids of all stations.
pub fn row_fault(
    sheet: &Sheet,
    columns: StopColumns,
    stations: &Texts<'_>,
    is_new: bool,
    row: usize,
) -> Option<FaultKind>
    requires row { row < length sheet.now }
    requires columns { AreStopColumns sheet.now columns }
    requires stations { texts_in stations.now.keys ≡ distinct (ids_of_kind row_kinds.Station sheet.now) }
    requires is_new { is_new ≡ has_new_key sheet.now (stop_id sheet.now) row }
    ensures { option_map (λ kind. fault_at kind files.Stops row) result ≡ first_fault (stop_tests sheet.now row) }
{
    let is_stop = means_stop(text_under(sheet, columns.location_type, row));
    if text_under(sheet, columns.id, row).is_empty() {
        Some(FaultKind::BadField)
    } else if !is_new {
        Some(FaultKind::DuplicateKey)
    } else if !parent_stands(is_stop, text_under(sheet, columns.parent, row), stations) {
        Some(FaultKind::UnknownReference)
    } else {
        None
    }
}

// Tests each row. The ids of the rows join `ids`.
fn test_rows<'a>(
    sheet: &'a Sheet,
    columns: StopColumns,
    stations: &Texts<'a>,
    ids: &mut Texts<'a>,
) -> Result<(), FeedFault>
    requires columns { AreStopColumns sheet.now columns }
    requires stations { texts_in stations.now.keys ≡ distinct (ids_of_kind row_kinds.Station sheet.now) }
    requires empty { ids.old.keys ≡ [] }
    ensures tests { Passes result (flat_map (stop_tests sheet.now) (rows_of sheet.now)) }
    ensures ids { OnOk result (texts_in ids.new.keys ≡ map (stop_id sheet.now) (rows_of sheet.now)) }
    ensures apart { OnOk result (AreApart (stop_id sheet.now) (rows_of sheet.now)) }
{
    for row in filled_rows(sheet) {
        let is_new = ids.insert(text_under(sheet, columns.id, row))?;
        if let Some(kind) = row_fault(sheet, columns, stations, is_new, row) {
            return Err(FeedFault::new(kind, FeedFile::Stops, row));
        }
    }
    Ok(())
}

// The stops. A station's number is its index among the ids of stations.
fn keep_stops(
    alloc: Global,
    sheet: &Sheet,
    columns: StopColumns,
    stations: &Texts<'_>,
) -> Result<Vec<Stop>, AllocError>
    requires columns { AreStopColumns sheet.now columns }
    requires few { length stations.now.keys ≤ 999_999_999 }
    ensures { IfOk result (λ stops. stops.items ≡ map (stop_among (texts_in stations.now.keys) sheet.now)
        (rows_of_kind row_kinds.Stop sheet.now)) }
{
    let mut stops = Vec::new(alloc);
    for row in filled_rows(sheet) {
        if means_stop(text_under(sheet, columns.location_type, row)) {
            let id = Id::new(alloc, text_under(sheet, columns.id, row))?;
            let station = number_in(stations, text_under(sheet, columns.parent, row));
            stops.push(Stop { id, station })?;
        }
    }
    Ok(stops)
}

// The number of a text among others.
fn number_in(texts: &Texts<'_>, text: &str) -> Option<u32>
    requires { length texts.now.keys ≤ 999_999_999 }
    ensures { result ≡ number_in (texts_in texts.now.keys) text.now }
{
    match texts.get_index_of(text) {
        Some(number) => Some(number as u32),
        None => None,
    }
}

// The stations, one for each of these ids.
fn keep_stations(alloc: Global, ids: &Texts<'_>) -> Result<Vec<Station>, AllocError>
    ensures { IfOk result (λ stations. stations.items ≡ map station_of (texts_in ids.now.keys)) }
{
    let mut stations = Vec::new(alloc);
    for id in ids.iter() {
        let id = Id::new(alloc, id)?;
        stations.push(Station { id })?;
    }
    Ok(stations)
}

// Adds the ids of the file, if each of its tests holds.
fn add_ids<'a>(
    sheet: &'a Sheet,
    columns: StopColumns,
    ids: &mut StopIds<'a>,
) -> Result<(), FeedFault>
    requires columns { AreStopColumns sheet.now columns }
    requires all { ids.old.all.keys ≡ [] }
    requires stops { ids.old.stops.keys ≡ [] }
    requires stations { ids.old.stations.keys ≡ [] }
    ensures tests { Passes result (stops_tests sheet.now) }
    ensures ids { OnOk result (AreStopIds sheet.now ids.new) }
    ensures few { OnOk result (length ids.new.stops.keys ≤ 1_000_000) }
    ensures few_stations { OnOk result (length ids.new.stations.keys ≤ 999_999_999) }
{
    if columns.id.is_none() {
        return Err(FeedFault::new(FaultKind::MissingColumn, FeedFile::Stops, 0));
    }
    add_ids_of(sheet, columns, RowKind::Station, &mut ids.stations)?;
    test_rows(sheet, columns, &ids.stations, &mut ids.all)?;
    if sheet.rows() > ROW_LIMIT {
        return Err(FeedFault::new(FaultKind::TooMany, FeedFile::Stops, 0));
    }
    add_ids_of(sheet, columns, RowKind::Stop, &mut ids.stops)?;
    if ids.stops.len() > STOP_LIMIT {
        return Err(FeedFault::new(FaultKind::TooMany, FeedFile::Stops, 0));
    }
    Ok(())
}

// The stops and the stations of the file, if each of its tests holds. Its ids join `ids`.
fn read_rows<'a>(
    alloc: Global,
    sheet: &'a Sheet,
    columns: StopColumns,
    ids: &mut StopIds<'a>,
) -> Result<(Vec<Stop>, Vec<Station>), FeedFault>
    requires columns { AreStopColumns sheet.now columns }
    requires all { ids.old.all.keys ≡ [] }
    requires stops { ids.old.stops.keys ≡ [] }
    requires stations { ids.old.stations.keys ≡ [] }
    ensures stops { Answers (λ rows. rows.0.items) result (stops_tests sheet.now) (stop_values sheet.now) }
    ensures stations { IfOk result (λ rows. rows.1.items ≡ station_values sheet.now) }
    ensures ids { OnOk result (AreStopIds sheet.now ids.new) }
    ensures few { OnOk result (length ids.new.stops.keys ≤ 1_000_000) }
    ensures few_stations { OnOk result (length ids.new.stations.keys ≤ 999_999_999) }
{
    add_ids(sheet, columns, ids)?;
    let stops = keep_stops(alloc, sheet, columns, &ids.stations)?;
    Ok((stops, keep_stations(alloc, &ids.stations)?))
}

/// The rows of stops.txt, if each of its tests holds.
pub fn read_stops(
    alloc: Global,
    hash_keys: RandomState,
    sheet: &Sheet,
) -> Result<StopRows<'_>, FeedFault>
    ensures stops { Answers (λ rows. rows.stops.items) result (stops_tests sheet.now) (stop_values sheet.now) }
    ensures stations { IfOk result (λ rows. rows.stations.items ≡ station_values sheet.now) }
    ensures ids { IfOk result (λ rows. AreStopIds sheet.now rows.ids) }
    ensures few { IfOk result (λ rows. length rows.stops.items ≤ 1_000_000) }
    ensures stop_ids { IfOk result (λ rows. length rows.ids.stops.keys ≡ length rows.stops.items) }
    ensures station_ids { IfOk result (λ rows. length rows.ids.stations.keys ≡ length rows.stations.items) }
    ensures few_stations { IfOk result (λ rows. length rows.stations.items ≤ 999_999_999) }
    ensures linked { IfOk result (λ rows. All (λ stop. IfSome stop.station (λ n. n < length rows.stations.items)) rows.stops.items) }
{
    let columns = stop_columns(sheet);
    let mut ids = StopIds {
        all: IndexSet::with_hasher(alloc, hash_keys),
        stops: IndexSet::with_hasher(alloc, hash_keys),
        stations: IndexSet::with_hasher(alloc, hash_keys),
    };
    let (stops, stations) = read_rows(alloc, sheet, columns, &mut ids)?;
    Ok(StopRows {
        stops,
        stations,
        ids,
    })
}
