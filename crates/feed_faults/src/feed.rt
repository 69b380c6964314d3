//! The faults of a feed's files, one file after the other.

ghost use Rattle.std.specs.Prelude.{◌≤◌, ◌≡◌, ◌++◌, IfOk, IfSome, OnOk, List, Option, ℕ, length, option_and_then, option_map};
ghost use Rattle.gtfs_rows.specs.declared.fault.FeedFile.TheVariants as files;
ghost use Rattle.gtfs_rows.specs.Rows.{IsContent, texts_in};
ghost use Rattle.gtfs_stops.specs.Stops.{lists_in};
ghost use Rattle.gtfs_tables.specs.Feed.{AreReaders, Feed};
ghost use Rattle.feed_faults.specs.Files.{faults_of, file_faults, optional_faults, services_faults};
ghost use Rattle.feed_faults.specs.Lists.{Lists};
ghost use Rattle.file_faults.specs.Lists.{Adds};
ghost use Rattle.feed_faults.specs.Opened.{AddsOrUnread, IsOpened, IsOpenedIfThere};
ghost use Rattle.feed_faults.specs.Opened.{linked_faults, others_faults, rest_faults, sheet_faults};
ghost use Rattle.file_faults.specs.Tables.{calendar_dates_faults, calendar_faults, frequencies_faults, ids_known, stop_times_faults};
ghost use Rattle.file_faults.specs.Tables.{stops_faults, transfers_faults, trips_faults, trips_known};

use file_faults::{
    FaultList, list_calendar, list_calendar_dates, list_calls, list_frequencies, list_stops,
    list_transfers, list_trips,
};
use gtfs_rows::{FaultKind, FeedFault, FeedFile, Texts, open_sheet};
use gtfs_stops::StopIds;
use gtfs_tables::Files;
use gtfs_text::Sheet;
use std::alloc::{AllocError, Global};
use std::hash::RandomState;
use std::io::Read;

// Opens a file, or lists why it isn't opened.
fn open<R: Read + Drop>(
    alloc: Global,
    file: FeedFile,
    reader: Option<R>,
    list: &mut FaultList,
) -> Result<Option<Sheet>, AllocError>
    ensures { (bytes : Option (List ℕ)) → IsContent R.remaining reader bytes → IfOk result (IsOpened file bytes list.old list.new) }
{
    match open_sheet(alloc, file, reader) {
        Ok(sheet) => Ok(Some(sheet)),
        Err(fault) => {
            list.add_unopened(fault)?;
            Ok(None)
        }
    }
}

// The same for a file that may be missing.
fn open_if_there<R: Read + Drop>(
    alloc: Global,
    file: FeedFile,
    reader: Option<R>,
    list: &mut FaultList,
) -> Result<Option<Sheet>, AllocError>
    ensures { (bytes : Option (List ℕ)) → IsContent R.remaining reader bytes → IfOk result (IsOpenedIfThere file bytes list.old list.new) }
{
    match reader {
        Some(reader) => open(alloc, file, Some(reader), list),
        None => Ok(None),
    }
}

// Lists the faults of stops.txt, and gives its ids.
fn stop_ids<'a>(
    alloc: Global,
    hash_keys: RandomState,
    sheet: &'a Option<Sheet>,
    list: &mut FaultList,
) -> Result<Option<StopIds<'a>>, AllocError>
    ensures list { OnOk result (Adds list.old list.new (sheet_faults stops_faults sheet.now)) }
    ensures ids { IfOk result (λ ids. option_map lists_in ids ≡ option_and_then ids_known sheet.now) }
    ensures few { IfOk result (λ ids. IfSome ids (λ ids. length ids.stops.keys ≤ 1_000_000)) }
    ensures few_stations { IfOk result (λ ids. IfSome ids (λ ids. length ids.stations.keys ≤ 999_999_999)) }
{
    match sheet {
        Some(sheet) => list_stops(alloc, hash_keys, sheet, list),
        None => Ok(None),
    }
}

// Lists the faults of trips.txt, and gives its ids.
fn trip_ids<'a>(
    alloc: Global,
    hash_keys: RandomState,
    sheet: &'a Option<Sheet>,
    list: &mut FaultList,
) -> Result<Option<Texts<'a>>, AllocError>
    ensures list { OnOk result (Adds list.old list.new (sheet_faults trips_faults sheet.now)) }
    ensures ids { IfOk result (λ ids. option_map (λ ids. texts_in ids.keys) ids ≡ option_and_then trips_known sheet.now) }
    ensures few { IfOk result (λ ids. IfSome ids (λ ids. length ids.keys ≤ 999_999_999)) }
{
    match sheet {
        Some(sheet) => list_trips(alloc, hash_keys, sheet, list),
        None => Ok(None),
    }
}

// Lists the faults of calendar.txt, if it is there.
fn list_calendar_file<R: Read + Drop>(
    alloc: Global,
    hash_keys: RandomState,
    reader: Option<R>,
    list: &mut FaultList,
) -> Result<(), AllocError>
    ensures { (bytes : Option (List ℕ)) → IsContent R.remaining reader bytes
        → OnOk result (AddsOrUnread list.old list.new (optional_faults files.Calendar calendar_faults bytes)) }
{
    match open_if_there(alloc, FeedFile::Calendar, reader, list)? {
        Some(sheet) => list_calendar(alloc, hash_keys, &sheet, list),
        None => Ok(()),
    }
}

// Lists the faults of calendar_dates.txt, if it is there.
fn list_dates_file<R: Read + Drop>(
    alloc: Global,
    hash_keys: RandomState,
    reader: Option<R>,
    list: &mut FaultList,
) -> Result<(), AllocError>
    ensures { (bytes : Option (List ℕ)) → IsContent R.remaining reader bytes
        → OnOk result (AddsOrUnread list.old list.new (optional_faults files.CalendarDates calendar_dates_faults bytes)) }
{
    match open_if_there(alloc, FeedFile::CalendarDates, reader, list)? {
        Some(sheet) => list_calendar_dates(alloc, hash_keys, &sheet, list),
        None => Ok(()),
    }
}

// Lists the faults of both files of services, of which one at least must be there.
fn list_services<R: Read + Drop>(
    alloc: Global,
    hash_keys: RandomState,
    calendar: Option<R>,
    calendar_dates: Option<R>,
    list: &mut FaultList,
) -> Result<(), AllocError>
    ensures { (bytes dates : Option (List ℕ)) → IsContent R.remaining calendar bytes → IsContent R.remaining calendar_dates dates
        → OnOk result (AddsOrUnread list.old list.new (services_faults bytes dates)) }
{
    if calendar.is_none() && calendar_dates.is_none() {
        return list.add_found(Some(FeedFault::new(FaultKind::MissingFile, FeedFile::Calendar, 0)));
    }
    list_calendar_file(alloc, hash_keys, calendar, list)?;
    list_dates_file(alloc, hash_keys, calendar_dates, list)
}

// Lists the faults of stop_times.txt, under the ids that are known.
fn list_calls_file<R: Read + Drop>(
    alloc: Global,
    hash_keys: RandomState,
    reader: Option<R>,
    ids: &Option<StopIds<'_>>,
    trips: &Option<Texts<'_>>,
    list: &mut FaultList,
) -> Result<(), AllocError>
    requires stops { IfSome ids.now (λ ids. length ids.stops.keys ≤ 1_000_000) }
    requires trips { IfSome trips.now (λ ids. length ids.keys ≤ 999_999_999) }
    ensures { (bytes : Option (List ℕ)) → IsContent R.remaining reader bytes
        → OnOk result (AddsOrUnread list.old list.new (file_faults files.StopTimes
        (stop_times_faults (option_map lists_in ids.now) (option_map (λ ids. texts_in ids.keys) trips.now)) bytes)) }
{
    match open(alloc, FeedFile::StopTimes, reader, list)? {
        Some(sheet) => list_calls(alloc, hash_keys, &sheet, ids, trips, list),
        None => Ok(()),
    }
}

// Lists the faults of transfers.txt, if it is there, under the ids that are known.
fn list_transfers_file<R: Read + Drop>(
    alloc: Global,
    reader: Option<R>,
    ids: &Option<StopIds<'_>>,
    list: &mut FaultList,
) -> Result<(), AllocError>
    requires stops { IfSome ids.now (λ ids. length ids.stops.keys ≤ 1_000_000) }
    requires stations { IfSome ids.now (λ ids. length ids.stations.keys ≤ 999_999_999) }
    ensures { (bytes : Option (List ℕ)) → IsContent R.remaining reader bytes → OnOk result (AddsOrUnread list.old list.new
        (optional_faults files.Transfers (transfers_faults (option_map lists_in ids.now)) bytes)) }
{
    match open_if_there(alloc, FeedFile::Transfers, reader, list)? {
        Some(sheet) => list_transfers(&sheet, ids, list),
        None => Ok(()),
    }
}

// Lists the faults of frequencies.txt, if it is there, under the ids that are known.
fn list_frequencies_file<R: Read + Drop>(
    alloc: Global,
    hash_keys: RandomState,
    reader: Option<R>,
    trips: &Option<Texts<'_>>,
    list: &mut FaultList,
) -> Result<(), AllocError>
    requires { IfSome trips.now (λ ids. length ids.keys ≤ 999_999_999) }
    ensures { (bytes : Option (List ℕ)) → IsContent R.remaining reader bytes → OnOk result (AddsOrUnread list.old list.new
        (optional_faults files.Frequencies (frequencies_faults (option_map (λ ids. texts_in ids.keys) trips.now)) bytes)) }
{
    match open_if_there(alloc, FeedFile::Frequencies, reader, list)? {
        Some(sheet) => list_frequencies(alloc, hash_keys, &sheet, trips, list),
        None => Ok(()),
    }
}

// Lists the faults of the files whose rows name rows of others. Their readers are taken out of `files`.
fn list_linked<R: Read + Drop>(
    alloc: Global,
    hash_keys: RandomState,
    files: &mut Files<R>,
    ids: &Option<StopIds<'_>>,
    trips: &Option<Texts<'_>>,
    list: &mut FaultList,
) -> Result<(), AllocError>
    requires stops { IfSome ids.now (λ ids. length ids.stops.keys ≤ 1_000_000) }
    requires stations { IfSome ids.now (λ ids. length ids.stations.keys ≤ 999_999_999) }
    requires trips { IfSome trips.now (λ ids. length ids.keys ≤ 999_999_999) }
    ensures { (feed : Feed) → IsContent R.remaining files.old.stop_times feed.stop_times
        → IsContent R.remaining files.old.transfers feed.transfers → IsContent R.remaining files.old.frequencies feed.frequencies
        → OnOk result (AddsOrUnread list.old list.new
        (linked_faults (option_map lists_in ids.now) (option_map (λ ids. texts_in ids.keys) trips.now) feed)) }
{
    list_calls_file(alloc, hash_keys, files.stop_times.take(), ids, trips, list)?;
    list_transfers_file(alloc, files.transfers.take(), ids, list)?;
    list_frequencies_file(alloc, hash_keys, files.frequencies.take(), trips, list)
}

// Lists the faults of trips.txt, which was opened, and of the files after it. Their readers are taken out of `files`.
fn list_from_trips<R: Read + Drop>(
    alloc: Global,
    hash_keys: RandomState,
    sheet: &Option<Sheet>,
    files: &mut Files<R>,
    ids: &Option<StopIds<'_>>,
    list: &mut FaultList,
) -> Result<(), AllocError>
    requires stops { IfSome ids.now (λ ids. length ids.stops.keys ≤ 1_000_000) }
    requires stations { IfSome ids.now (λ ids. length ids.stations.keys ≤ 999_999_999) }
    ensures { (feed : Feed) → IsContent R.remaining files.old.calendar feed.calendar
        → IsContent R.remaining files.old.calendar_dates feed.calendar_dates → IsContent R.remaining files.old.stop_times feed.stop_times
        → IsContent R.remaining files.old.transfers feed.transfers → IsContent R.remaining files.old.frequencies feed.frequencies
        → OnOk result (AddsOrUnread list.old list.new
        (sheet_faults trips_faults sheet.now ++ rest_faults (option_map lists_in ids.now) (option_and_then trips_known sheet.now) feed)) }
{
    let known = trip_ids(alloc, hash_keys, sheet, list)?;
    list_services(
        alloc,
        hash_keys,
        files.calendar.take(),
        files.calendar_dates.take(),
        list,
    )?;
    list_linked(alloc, hash_keys, files, ids, &known, list)
}

// Lists the faults of all files but stops.txt. Their readers are taken out of `files`.
fn list_others<R: Read + Drop>(
    alloc: Global,
    hash_keys: RandomState,
    files: &mut Files<R>,
    ids: &Option<StopIds<'_>>,
    list: &mut FaultList,
) -> Result<(), AllocError>
    requires stops { IfSome ids.now (λ ids. length ids.stops.keys ≤ 1_000_000) }
    requires stations { IfSome ids.now (λ ids. length ids.stations.keys ≤ 999_999_999) }
    ensures { (feed : Feed) → IsContent R.remaining files.old.trips feed.trips → IsContent R.remaining files.old.calendar feed.calendar
        → IsContent R.remaining files.old.calendar_dates feed.calendar_dates → IsContent R.remaining files.old.stop_times feed.stop_times
        → IsContent R.remaining files.old.transfers feed.transfers → IsContent R.remaining files.old.frequencies feed.frequencies
        → OnOk result (AddsOrUnread list.old list.new (others_faults (option_map lists_in ids.now) feed)) }
{
    let sheet = open(alloc, FeedFile::Trips, files.trips.take(), list)?;
    list_from_trips(alloc, hash_keys, &sheet, files, ids, list)
}

// Lists the faults of stops.txt, which was opened, and of the files after it. Their readers are taken out of `files`.
fn list_from_stops<R: Read + Drop>(
    alloc: Global,
    hash_keys: RandomState,
    sheet: &Option<Sheet>,
    files: &mut Files<R>,
    list: &mut FaultList,
) -> Result<(), AllocError>
    ensures { (feed : Feed) → IsContent R.remaining files.old.trips feed.trips → IsContent R.remaining files.old.calendar feed.calendar
        → IsContent R.remaining files.old.calendar_dates feed.calendar_dates → IsContent R.remaining files.old.stop_times feed.stop_times
        → IsContent R.remaining files.old.transfers feed.transfers → IsContent R.remaining files.old.frequencies feed.frequencies
        → OnOk result (AddsOrUnread list.old list.new
        (sheet_faults stops_faults sheet.now ++ others_faults (option_and_then ids_known sheet.now) feed)) }
{
    let ids = stop_ids(alloc, hash_keys, sheet, list)?;
    list_others(alloc, hash_keys, files, &ids, list)
}

// Lists the faults of all files. Their readers are taken out of `files`.
fn list_files<R: Read + Drop>(
    alloc: Global,
    hash_keys: RandomState,
    files: &mut Files<R>,
    list: &mut FaultList,
) -> Result<(), AllocError>
    ensures { (feed : Feed) → AreReaders R.remaining files.old feed → OnOk result (AddsOrUnread list.old list.new (faults_of feed)) }
{
    let sheet = open(alloc, FeedFile::Stops, files.stops.take(), list)?;
    list_from_stops(alloc, hash_keys, &sheet, files, list)
}

/// Lists the faults of a feed's files, the first 1,000 of them, and counts the others. In each file they come in the order of its rows, and
/// files in that of docs/FORMATS.md. The first of the list is the fault that `read_tables` reports.
///
/// A file that isn't there, can't be read or lacks a column has that one fault. Of each row that fails a test the first such test is
/// listed.
/// An id counts as known whatever else is wrong with its row. What rests on something at fault isn't tested: rows, if the file of the ids
/// that they name can't be read as a table, and the times of trips, if a row of stop_times.txt is at fault.
///
/// It fails only if memory ran out. Ids are looked up under `hash_keys`, which nobody who writes a feed can know.
pub fn list_faults<R: Read + Drop>(
    alloc: Global,
    hash_keys: RandomState,
    files: Files<R>,
) -> Result<FaultList, AllocError>
    ensures { (feed : Feed) → AreReaders R.remaining files feed → IfOk result (λ list. Lists list (faults_of feed)) }
{
    let mut files = files;
    let mut list = FaultList::new(alloc);
    list_files(alloc, hash_keys, &mut files, &mut list)?;
    Ok(list)
}
