//! Reading the tables of a feed.

ghost use Rattle.std.specs.Prelude.{◌≡◌, ◌<◌, ◌≤◌, ◌||◌, length, is_some, IfOk, Option, List, ℕ};
ghost use Rattle.std.specs.Option.{IfSome};
ghost use Rattle.std.specs.List.{All};
ghost use Rattle.gtfs_rows.specs.declared.fault.FeedFile.TheVariants as files;
ghost use Rattle.gtfs_rows.specs.Faults.{Answers};
ghost use Rattle.gtfs_rows.specs.Rows.{IsContent, optional_tests, table_in, texts_in};
ghost use Rattle.gtfs_services.specs.Calendar.{calendar_values};
ghost use Rattle.gtfs_services.specs.CalendarDates.{calendar_date_values};
ghost use Rattle.gtfs_stops.specs.Stops.{lists_in};
ghost use Rattle.gtfs_stops.specs.Transfers.{IsTransfer, transfers_tests, transfer_values, skipped_transfers};
ghost use Rattle.gtfs_calls.specs.CallLists.{AreCallLists};
ghost use Rattle.gtfs_tables.specs.Schedules.{AreConnectionReaders, AreConnections, AreLinks, AreScheduleReaders, IsSchedule};
ghost use Rattle.gtfs_tables.specs.Schedules.{ConnectionBytes, LinkBytes, ScheduleBytes, TimeBytes};
ghost use Rattle.gtfs_tables.specs.Schedules.{connection_tests, connection_values, connections_in, link_tests, link_values, links_in};
ghost use Rattle.gtfs_tables.specs.Schedules.{rows_in, schedule_in, schedule_tests, schedule_values, time_values, times_in, times_tests};
ghost use Rattle.gtfs_tables.specs.Tables.{AreTables};
ghost use Rattle.gtfs_tables.specs.Feed.{Feed, AreReaders, feed_tests, services_tests, values_of};

use crate::tables::Tables;
use gtfs_calls::{CallRows, read_stop_times};
use gtfs_frequencies::read_frequencies;
use gtfs_rows::{
    CalendarDate, CalendarRow, FaultKind, FeedFault, FeedFile, Frequency, Id, Skipped, Station,
    Stop, Texts, Trip, open_sheet,
};
use gtfs_services::{read_calendar, read_calendar_dates, read_trips};
use gtfs_stops::{StopIds, StopRows, TransferRows, read_stops, read_transfers};
use std::alloc::Global;
use std::hash::RandomState;
use std::io::Read;

/// The files of a feed, each as a reader if it is there.
#[derive(Drop)]
pub struct Files<R> {
    pub stops: Option<R>,
    pub trips: Option<R>,
    pub calendar: Option<R>,
    pub calendar_dates: Option<R>,
    pub stop_times: Option<R>,
    pub transfers: Option<R>,
    pub frequencies: Option<R>,
}

// The rows of transfers.txt that are kept; none if there is no such file.
fn read_optional_transfers<R: Read + Drop>(
    alloc: Global,
    reader: Option<R>,
    ids: &StopIds<'_>,
) -> Result<TransferRows, FeedFault>
    requires stops { length ids.now.stops.keys ≤ 1_000_000 }
    requires stations { length ids.now.stations.keys ≤ 999_999_999 }
    ensures transfers { (bytes : Option (List ℕ)) → IsContent R.remaining reader bytes
        → Answers (λ rows. rows.transfers.items) result (optional_tests files.Transfers (transfers_tests (lists_in ids.now)) bytes)
        (transfer_values (lists_in ids.now) (table_in bytes)) }
    ensures skipped { (bytes : Option (List ℕ)) → IsContent R.remaining reader bytes
        → IfOk result (λ rows. rows.skipped ≡ skipped_transfers (lists_in ids.now) (table_in bytes)) }
    ensures valid { IfOk result (λ rows. All (IsTransfer (length ids.now.stops.keys) (length ids.now.stations.keys)) rows.transfers.items) }
    ensures few { IfOk result (λ rows. length rows.transfers.items ≤ 999_999_999) }
{
    if reader.is_none() {
        return Ok(TransferRows {
            transfers: Vec::new(alloc),
            skipped: 0,
        });
    }
    let sheet = open_sheet(alloc, FeedFile::Transfers, reader)?;
    read_transfers(alloc, &sheet, ids)
}

// Whether one of two files is there at least.
fn is_any_there<R>(first: &Option<R>, second: &Option<R>) -> bool
    ensures { result ≡ (is_some first.now || is_some second.now) }
{
    first.is_some() || second.is_some()
}

// What both files of services say.
#[derive(Drop)]
struct Calendars {
    rows: Vec<CalendarRow>,
    dates: Vec<CalendarDate>,
}

// The rows of calendar.txt and of calendar_dates.txt, of which one at least is there.
fn read_calendars<R: Read + Drop>(
    alloc: Global,
    hash_keys: RandomState,
    calendar: Option<R>,
    calendar_dates: Option<R>,
) -> Result<Calendars, FeedFault>
    ensures rows { (bytes dates : Option (List ℕ)) → IsContent R.remaining calendar bytes → IsContent R.remaining calendar_dates dates
        → Answers (λ read. read.rows.items) result (services_tests bytes dates) (calendar_values (table_in bytes)) }
    ensures dates { (bytes dates : Option (List ℕ)) → IsContent R.remaining calendar bytes → IsContent R.remaining calendar_dates dates
        → IfOk result (λ read. read.dates.items ≡ calendar_date_values (table_in dates)) }
{
    if !is_any_there(&calendar, &calendar_dates) {
        return Err(FeedFault::new(FaultKind::MissingFile, FeedFile::Calendar, 0));
    }
    let rows = read_calendar(alloc, hash_keys, calendar)?;
    let dates = read_calendar_dates(alloc, hash_keys, calendar_dates)?;
    Ok(Calendars { rows, dates })
}

// When trips run: the days of their services, and their calls.
#[derive(Drop)]
struct Times {
    calendars: Calendars,
    calls: CallRows,
}

// What the files of services and stop_times.txt say, under the ids of stops and trips.
fn read_times<R: Read + Drop>(
    alloc: Global,
    hash_keys: RandomState,
    calendar: Option<R>,
    calendar_dates: Option<R>,
    stop_times: Option<R>,
    stops: &Texts<'_>,
    trips: &Texts<'_>,
) -> Result<Times, FeedFault>
    requires stops { length stops.now.keys ≤ 1_000_000 }
    requires trips { length trips.now.keys ≤ 999_999_999 }
    ensures times { (bytes : TimeBytes) → IsContent R.remaining calendar bytes.calendar
        → IsContent R.remaining calendar_dates bytes.calendar_dates → IsContent R.remaining stop_times bytes.stop_times
        → Answers times_in result (times_tests (texts_in stops.now.keys) (texts_in trips.now.keys) bytes)
        (time_values (texts_in stops.now.keys) (texts_in trips.now.keys) bytes) }
    ensures valid { IfOk result (λ times. AreCallLists (length stops.now.keys) (length trips.now.keys) times.calls.calls) }
{
    let calendars = read_calendars(alloc, hash_keys, calendar, calendar_dates)?;
    let calls = read_stop_times(alloc, hash_keys, stop_times, stops, trips)?;
    Ok(Times { calendars, calls })
}

// What links calls to others: the rows of transfers.txt that are kept, and those of frequencies.txt.
#[derive(Drop)]
struct Links {
    transfers: TransferRows,
    frequencies: Vec<Frequency>,
}

// What these two files say, under the ids of stops.txt and those of trips.
fn read_links<R: Read + Drop>(
    alloc: Global,
    hash_keys: RandomState,
    transfers: Option<R>,
    frequencies: Option<R>,
    ids: &StopIds<'_>,
    trips: &Texts<'_>,
) -> Result<Links, FeedFault>
    requires stops { length ids.now.stops.keys ≤ 1_000_000 }
    requires stations { length ids.now.stations.keys ≤ 999_999_999 }
    requires trips { length trips.now.keys ≤ 999_999_999 }
    ensures links { (bytes : LinkBytes) → IsContent R.remaining transfers bytes.transfers
        → IsContent R.remaining frequencies bytes.frequencies
        → Answers links_in result (link_tests (lists_in ids.now) (texts_in trips.now.keys) bytes)
        (link_values (lists_in ids.now) (texts_in trips.now.keys) bytes) }
    ensures valid { IfOk result (AreLinks (length ids.now.stops.keys) (length ids.now.stations.keys) (length trips.now.keys)) }
{
    let transfers = read_optional_transfers(alloc, transfers, ids)?;
    let frequencies = read_frequencies(alloc, hash_keys, frequencies, trips)?;
    Ok(Links {
        transfers,
        frequencies,
    })
}

// The files that name stops and trips, each as a reader if it is there.
#[derive(Drop)]
struct ConnectionFiles<R> {
    calendar: Option<R>,
    calendar_dates: Option<R>,
    stop_times: Option<R>,
    transfers: Option<R>,
    frequencies: Option<R>,
}

// What connects stops: when trips run, and what links calls.
#[derive(Drop)]
struct Connections {
    times: Times,
    links: Links,
}

// The connections that the files say, under the ids of stops.txt and those of trips.
fn read_connections<R: Read + Drop>(
    alloc: Global,
    hash_keys: RandomState,
    files: ConnectionFiles<R>,
    ids: &StopIds<'_>,
    trips: &Texts<'_>,
) -> Result<Connections, FeedFault>
    requires stops { length ids.now.stops.keys ≤ 1_000_000 }
    requires stations { length ids.now.stations.keys ≤ 999_999_999 }
    requires trips { length trips.now.keys ≤ 999_999_999 }
    ensures connections { (bytes : ConnectionBytes) → AreConnectionReaders R.remaining files bytes
        → Answers connections_in result (connection_tests (lists_in ids.now) (texts_in trips.now.keys) bytes)
        (connection_values (lists_in ids.now) (texts_in trips.now.keys) bytes) }
    ensures valid { IfOk result (AreConnections (length ids.now.stops.keys) (length ids.now.stations.keys) (length trips.now.keys)) }
{
    let times = read_times(
        alloc,
        hash_keys,
        files.calendar,
        files.calendar_dates,
        files.stop_times,
        &ids.stops,
        trips,
    )?;
    let links = read_links(
        alloc,
        hash_keys,
        files.transfers,
        files.frequencies,
        ids,
        trips,
    )?;
    Ok(Connections { times, links })
}

// The files of a schedule, each as a reader if it is there.
#[derive(Drop)]
struct ScheduleFiles<R> {
    trips: Option<R>,
    connections: ConnectionFiles<R>,
}

// The trips of a feed, the services that they name, and what connects stops.
#[derive(Drop)]
struct Schedule {
    services: Vec<Id>,
    trips: Vec<Trip>,
    connections: Connections,
}

// The schedule that the files say, under the ids of stops.txt.
fn read_schedule<R: Read + Drop>(
    alloc: Global,
    hash_keys: RandomState,
    files: ScheduleFiles<R>,
    ids: &StopIds<'_>,
) -> Result<Schedule, FeedFault>
    requires stops { length ids.now.stops.keys ≤ 1_000_000 }
    requires stations { length ids.now.stations.keys ≤ 999_999_999 }
    ensures schedule { (bytes : ScheduleBytes) → AreScheduleReaders R.remaining files bytes
        → Answers schedule_in result (schedule_tests (lists_in ids.now) bytes) (schedule_values (lists_in ids.now) bytes) }
    ensures valid { IfOk result (IsSchedule (length ids.now.stops.keys) (length ids.now.stations.keys)) }
{
    let trips_sheet = open_sheet(alloc, FeedFile::Trips, files.trips)?;
    let trips = read_trips(alloc, hash_keys, &trips_sheet)?;
    let connections = read_connections(alloc, hash_keys, files.connections, ids, &trips.ids)?;
    Ok(Schedule {
        services: trips.services,
        trips: trips.trips,
        connections,
    })
}

// The schedule, under ids that nobody needs after it.
fn schedule_of<R: Read + Drop>(
    alloc: Global,
    hash_keys: RandomState,
    files: ScheduleFiles<R>,
    ids: StopIds<'_>,
) -> Result<Schedule, FeedFault>
    requires stops { length ids.stops.keys ≤ 1_000_000 }
    requires stations { length ids.stations.keys ≤ 999_999_999 }
    ensures schedule { (bytes : ScheduleBytes) → AreScheduleReaders R.remaining files bytes
        → Answers schedule_in result (schedule_tests (lists_in ids.entry) bytes) (schedule_values (lists_in ids.entry) bytes) }
    ensures valid { IfOk result (IsSchedule (length ids.entry.stops.keys) (length ids.entry.stations.keys)) }
{
    read_schedule(alloc, hash_keys, files, &ids)
}

// What was read of all files.
#[derive(Drop)]
struct FeedRows {
    stops: Vec<Stop>,
    stations: Vec<Station>,
    schedule: Schedule,
}

// The rows of all files, by the order of their tests.
fn read_rows<R: Read + Drop>(
    alloc: Global,
    hash_keys: RandomState,
    files: Files<R>,
) -> Result<FeedRows, FeedFault>
    ensures rows { (feed : Feed) → AreReaders R.remaining files feed → Answers rows_in result (feed_tests feed) (values_of feed) }
    ensures valid { IfOk result (λ rows. AreTables (rows_in rows)) }
{
    let schedule_files = ScheduleFiles {
        trips: files.trips,
        connections: ConnectionFiles {
            calendar: files.calendar,
            calendar_dates: files.calendar_dates,
            stop_times: files.stop_times,
            transfers: files.transfers,
            frequencies: files.frequencies,
        },
    };
    let sheet = open_sheet(alloc, FeedFile::Stops, files.stops)?;
    let StopRows {
        stops,
        stations,
        ids,
    } = read_stops(alloc, hash_keys, &sheet)?;
    let schedule = schedule_of(alloc, hash_keys, schedule_files, ids)?;
    Ok(FeedRows {
        stops,
        stations,
        schedule,
    })
}

// The tables of these rows.
fn tables_of(rows: FeedRows) -> Tables
    requires { AreTables (rows_in rows) }
    ensures { result ≡ rows_in rows }
{
    let FeedRows {
        stops,
        stations,
        schedule,
    } = rows;
    let Connections { times, links } = schedule.connections;
    let Times { calendars, calls } = times;
    let Links {
        transfers,
        frequencies,
    } = links;
    let skipped = Skipped {
        calls: calls.skipped,
        transfers: transfers.skipped,
    };
    Tables {
        stops,
        stations,
        services: schedule.services,
        trips: schedule.trips,
        calendar: calendars.rows,
        calendar_dates: calendars.dates,
        calls: calls.calls,
        transfers: transfers.transfers,
        frequencies,
        skipped,
    }
}

/// Reads the seven files of a feed (GTFS Schedule reference): the values of their rows if every test of the feed holds, else the fault of
/// the first that doesn't. The order is that of files, rows and tests in docs/FORMATS.md. `ReadFailed`, if a file's reader
/// fails, and `Memory` can come in place of any answer.
///
/// Ids are looked up under `hash_keys`, which nobody who writes a feed can know.
pub fn read_tables<R: Read + Drop>(
    alloc: Global,
    hash_keys: RandomState,
    files: Files<R>,
) -> Result<Tables, FeedFault>
    ensures { (feed : Feed) → AreReaders R.remaining files feed → Answers (λ tables. tables) result (feed_tests feed) (values_of feed) }
{
    let rows = read_rows(alloc, hash_keys, files)?;
    Ok(tables_of(rows))
}
