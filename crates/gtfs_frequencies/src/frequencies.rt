//! frequencies.txt.

ghost use Rattle.std.specs.Prelude.{◌≡◌, ◌<◌, ◌≤◌, [], length, Option, List, ℕ, IfOk, IfSome};
ghost use Rattle.std.specs.List.{All, flat_map};
ghost use Rattle.gtfs_rows.specs.declared.fault.FeedFile.TheVariants as files;
ghost use Rattle.gtfs_rows.specs.Faults.{Answers};
ghost use Rattle.gtfs_rows.specs.Rows.{IsContent, number_in, optional_tests, rows_of, table_in, texts_in};
ghost use Rattle.gtfs_frequencies.specs.Frequencies.{headway_of, is_exactness, field_tests, frequency_tests, frequency_value};
ghost use Rattle.gtfs_frequencies.specs.Frequencies.{frequencies_tests, frequency_values, IsFrequency, AreFrequencyColumns};

use gtfs_rows::{
    FaultKind, FeedFault, FeedFile, Frequency, ROW_LIMIT, Texts, filled_rows, open_sheet,
    text_under,
};
use gtfs_text::{Sheet, time, whole};
use indexmap::IndexSet;
use std::alloc::Global;
use std::hash::RandomState;
use std::io::Read;

/// Keys of rows: each the number of a trip and a start_time.
pub type FrequencyKeys = IndexSet<(u32, u32), RandomState>;

/// Where the columns of frequencies.txt are.
#[derive(Clone, Copy)]
pub struct FrequencyColumns {
    pub trip: Option<usize>,
    pub start: Option<usize>,
    pub end: Option<usize>,
    pub headway: Option<usize>,
    pub exact: Option<usize>,
}

/// Looks for the columns in the header.
pub fn frequency_columns(sheet: &Sheet) -> FrequencyColumns
    ensures { AreFrequencyColumns sheet.now result }
{
    FrequencyColumns {
        trip: sheet.column("trip_id"),
        start: sheet.column("start_time"),
        end: sheet.column("end_time"),
        headway: sheet.column("headway_secs"),
        exact: sheet.column("exact_times"),
    }
}

// The number of a trip by its id.
fn trip_number(trips: &Texts<'_>, id: &str) -> Option<u32>
    requires { length trips.now.keys ≤ 999_999_999 }
    ensures number { result ≡ number_in (texts_in trips.now.keys) id.now }
    ensures below { IfSome result (λ n. n < length trips.now.keys) }
{
    let number = trips.get_index_of(id)?;
    Some(number as u32)
}

// The seconds of a headway, which is a whole number from 1 on.
fn headway(text: &str) -> Option<u32>
    ensures { result ≡ headway_of text.now }
{
    let seconds = whole(text)?;
    if seconds >= 1 { Some(seconds) } else { None }
}

// Whether the text is an exact_times.
fn is_exactness(text: &str) -> bool
    ensures { result ≡ is_exactness text.now }
{
    text.is_empty() || text == "0" || text == "1"
}

/// The values of a row of frequencies.txt, if its fields pass their tests. Whether it is the first of its trip and start isn't tested.
pub fn read_row(
    sheet: &Sheet,
    columns: FrequencyColumns,
    trips: &Texts<'_>,
    row: usize,
) -> Result<Frequency, FeedFault>
    requires row { row < length sheet.now }
    requires columns { AreFrequencyColumns sheet.now columns }
    requires trips { length trips.now.keys ≤ 999_999_999 }
    ensures value { Answers (λ value. value) result (field_tests (texts_in trips.now.keys) sheet.now row)
        (frequency_value (texts_in trips.now.keys) sheet.now row) }
    ensures known { IfOk result (IsFrequency (length trips.now.keys)) }
{
    let bad_field = FeedFault::new(FaultKind::BadField, FeedFile::Frequencies, row);
    let Some(trip) = trip_number(trips, text_under(sheet, columns.trip, row)) else {
        return Err(FeedFault::new(FaultKind::UnknownReference, FeedFile::Frequencies, row));
    };
    let Some(start) = time(text_under(sheet, columns.start, row)) else {
        return Err(bad_field);
    };
    let Some(end) = time(text_under(sheet, columns.end, row)) else {
        return Err(bad_field);
    };
    let Some(headway) = headway(text_under(sheet, columns.headway, row)) else {
        return Err(bad_field);
    };
    let exactness = text_under(sheet, columns.exact, row);
    if !is_exactness(exactness) {
        return Err(bad_field);
    }
    Ok(Frequency {
        trip,
        start,
        end,
        headway,
        exact: exactness == "1",
    })
}

// The rows, if each passes its tests. Their keys join `seen`.
fn keep_rows(
    alloc: Global,
    sheet: &Sheet,
    columns: FrequencyColumns,
    trips: &Texts<'_>,
    seen: &mut FrequencyKeys,
) -> Result<Vec<Frequency>, FeedFault>
    requires columns { AreFrequencyColumns sheet.now columns }
    requires trips { length trips.now.keys ≤ 999_999_999 }
    requires empty { seen.old.keys ≡ [] }
    ensures rows { Answers (λ rows. rows.items) result
        (flat_map (frequency_tests (texts_in trips.now.keys) sheet.now) (rows_of sheet.now))
        (frequency_values (texts_in trips.now.keys) sheet.now) }
    ensures known { IfOk result (λ rows. All (IsFrequency (length trips.now.keys)) rows.items) }
{
    let mut rows = Vec::new(alloc);
    for row in filled_rows(sheet) {
        let value = read_row(sheet, columns, trips, row)?;
        let is_new = seen.insert((value.trip, value.start))?;
        if !is_new {
            return Err(FeedFault::new(FaultKind::DuplicateKey, FeedFile::Frequencies, row));
        }
        rows.push(value)?;
    }
    Ok(rows)
}

// The rows, if each passes its tests.
fn read_rows(
    alloc: Global,
    hash_keys: RandomState,
    sheet: &Sheet,
    columns: FrequencyColumns,
    trips: &Texts<'_>,
) -> Result<Vec<Frequency>, FeedFault>
    requires columns { AreFrequencyColumns sheet.now columns }
    requires trips { length trips.now.keys ≤ 999_999_999 }
    ensures rows { Answers (λ rows. rows.items) result
        (flat_map (frequency_tests (texts_in trips.now.keys) sheet.now) (rows_of sheet.now))
        (frequency_values (texts_in trips.now.keys) sheet.now) }
    ensures known { IfOk result (λ rows. All (IsFrequency (length trips.now.keys)) rows.items) }
{
    let mut seen = IndexSet::with_hasher(alloc, hash_keys);
    keep_rows(alloc, sheet, columns, trips, &mut seen)
}

// The rows of the file, if each of its tests holds.
fn read_sheet(
    alloc: Global,
    hash_keys: RandomState,
    sheet: &Sheet,
    trips: &Texts<'_>,
) -> Result<Vec<Frequency>, FeedFault>
    requires { length trips.now.keys ≤ 999_999_999 }
    ensures rows { Answers (λ rows. rows.items) result (frequencies_tests (texts_in trips.now.keys) sheet.now)
        (frequency_values (texts_in trips.now.keys) sheet.now) }
    ensures known { IfOk result (λ rows. All (IsFrequency (length trips.now.keys)) rows.items) }
    ensures few { IfOk result (λ rows. length rows.items ≤ 999_999_999) }
{
    let columns = frequency_columns(sheet);
    if columns.trip.is_none()
        || columns.start.is_none()
        || columns.end.is_none()
        || columns.headway.is_none()
    {
        return Err(FeedFault::new(FaultKind::MissingColumn, FeedFile::Frequencies, 0));
    }
    let rows = read_rows(alloc, hash_keys, sheet, columns, trips)?;
    if sheet.rows() > ROW_LIMIT {
        return Err(FeedFault::new(FaultKind::TooMany, FeedFile::Frequencies, 0));
    }
    Ok(rows)
}

/// Reads frequencies.txt (GTFS Schedule reference, frequencies.txt): one value for each row that isn't blank, in file order; none
/// if there is no such file. Rows are counted from 1, and a trip has the number of its id in `trips`.
///
/// The error is the first of these, with its row: `BadCsv` for a record that isn't UTF-8, with the header as row 0;
/// `MissingColumn`, row 0, if one of the four columns isn't there; then row by row `UnknownReference` for a trip that isn't in
/// `trips`, `BadField` for a `start_time` or an `end_time` that is no time, for a `headway_secs` that is no whole number from 1 on
/// and for an `exact_times` that is neither empty nor `0` nor `1`, and `DuplicateKey` if an earlier row has the trip and the
/// start time; then `TooMany`, row 0, for more than 999,999,999 rows, blank ones among them. `ReadFailed` and `Memory` can come in
/// place of any answer. Trips and times are looked up under `hash_keys`, which nobody who writes a feed can know.
pub fn read_frequencies<R: Read + Drop>(
    alloc: Global,
    hash_keys: RandomState,
    reader: Option<R>,
    trips: &Texts<'_>,
) -> Result<Vec<Frequency>, FeedFault>
    requires { length trips.now.keys ≤ 999_999_999 }
    ensures rows { (bytes : Option (List ℕ)) → IsContent R.remaining reader bytes
        → Answers (λ rows. rows.items) result (optional_tests files.Frequencies (frequencies_tests (texts_in trips.now.keys)) bytes)
        (frequency_values (texts_in trips.now.keys) (table_in bytes)) }
    ensures known { IfOk result (λ rows. All (IsFrequency (length trips.now.keys)) rows.items) }
    ensures few { IfOk result (λ rows. length rows.items ≤ 999_999_999) }
{
    if reader.is_none() {
        return Ok(Vec::new(alloc));
    }
    let sheet = open_sheet(alloc, FeedFile::Frequencies, reader)?;
    read_sheet(alloc, hash_keys, &sheet, trips)
}
