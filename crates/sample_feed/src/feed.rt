//! The sample feed, and timetables of feeds like it.

ghost use Rattle.std.specs.Prelude.{◌≡◌, IfOk};
ghost use Rattle.timetable.specs.Table.{stops_of};

use civil_dates::Date;
use feed_timetable::assemble;
use gtfs_tables::{Files, Tables, read_tables};
use service_days::Cover;
use std::hash::RandomState;
use std::test::Fail;
use timetable::Timetable;

/// Five stops: A, B, C, D and E are 0 to 4.
pub const STOPS: &str = "stop_id\nA\nB\nC\nD\nE\n";

/// Three trips on weekdays.
pub const TRIPS: &str = "trip_id,service_id\nT1,WK\nT2,WK\nT3,WK\n";

pub const CALENDAR: &str =
    "service_id,monday,tuesday,wednesday,thursday,friday,saturday,sunday,start_date,end_date\nWK,1,1,1,1,1,0,0,20240101,20241231\n";

pub const STOP_TIMES: &str =
    "trip_id,stop_id,stop_sequence,arrival_time,departure_time\nT1,A,1,08:00:00,08:00:00\nT1,B,2,08:10:00,08:12:00\n\
    T1,C,3,08:30:00,08:30:00\nT2,B,1,08:15:00,08:15:00\nT2,D,2,08:40:00,08:40:00\nT3,A,1,08:05:00,08:05:00\n\
    T3,D,2,09:00:00,09:00:00\n";

/// A change at B and a walk from C to E.
pub const TRANSFERS: &str =
    "from_stop_id,to_stop_id,transfer_type,min_transfer_time\nB,B,2,120\nC,E,2,240\n";

/// The texts of a feed's files.
#[derive(Clone, Copy)]
pub struct Feed<'a> {
    pub stops: &'a str,
    pub trips: &'a str,
    pub calendar: &'a str,
    pub calendar_dates: &'a str,
    pub stop_times: &'a str,
    pub transfers: &'a str,
    /// None if there is no such file.
    pub frequencies: Option<&'a str>,
}

impl Feed<'static> {
    /// The sample feed.
    pub const SAMPLE: Feed<'static> = Feed {
        stops: STOPS,
        trips: TRIPS,
        calendar: CALENDAR,
        calendar_dates: "service_id,date,exception_type\n",
        stop_times: STOP_TIMES,
        transfers: TRANSFERS,
        frequencies: None,
    };
}

/// Which days are covered: `days` from a day of January 2024 on, by the clock of a zone's rule. And the seconds of a walk or
/// change whose row gives none.
#[derive(Clone, Copy)]
pub struct Span {
    pub first: i8,
    pub days: u8,
    pub zone: &'static str,
    pub default_walk: u32,
}

impl Span {
    /// One Tuesday, and two minutes.
    pub const TUESDAY: Span = Span {
        first: 2,
        days: 1,
        zone: "UTC0",
        default_walk: 120,
    };

    /// A Tuesday and a Wednesday.
    pub const TWO_DAYS: Span = Span {
        days: 2,
        ..Span::TUESDAY
    };

    /// A Monday of 23 hours and a Tuesday: by this rule the clock is put forward in the night between them.
    pub const SHORT_DAY: Span = Span {
        first: 1,
        days: 2,
        zone: "CET-1CEST,M1.1.2,M10.5.0/3",
        ..Span::TUESDAY
    };
}

/// What a feed's files say.
pub fn tables_of(rt: &HostRuntime, feed: Feed<'_>) -> Result<Tables, Fail> {
    let files = Files {
        stops: Some(feed.stops.as_bytes()),
        trips: Some(feed.trips.as_bytes()),
        calendar: Some(feed.calendar.as_bytes()),
        calendar_dates: Some(feed.calendar_dates.as_bytes()),
        stop_times: Some(feed.stop_times.as_bytes()),
        transfers: Some(feed.transfers.as_bytes()),
        frequencies: match feed.frequencies {
            Some(rows) => Some(rows.as_bytes()),
            None => None,
        },
    };
    Ok(read_tables(rt.alloc(), RandomState::new(rt)?, files)?)
}

/// The timetable of a feed.
pub fn table_of(rt: &HostRuntime, feed: Feed<'_>, span: Span) -> Result<Timetable, Fail> {
    let tables = tables_of(rt, feed)?;
    let cover = Cover::new(Date::new(2024, 1, span.first)?, span.days, span.zone)?;
    Ok(assemble(rt.alloc(), &tables, &cover, span.default_walk.min(86_400))?)
}

// The timetable, if it has `stops` stops.
pub(crate) fn with_stops(table: Timetable, stops: usize) -> Result<Timetable, Fail>
    ensures { IfOk result (λ table. stops_of table ≡ stops) }
{
    if table.stops() != stops {
        return Err(Fail::new("another number of stops"));
    }
    Ok(table)
}

/// The timetable of the sample feed on a Tuesday.
pub fn demo(rt: &HostRuntime) -> Result<Timetable, Fail>
    ensures { IfOk result (λ table. stops_of table ≡ 5) }
{
    with_stops(table_of(rt, Feed::SAMPLE, Span::TUESDAY)?, 5)
}

/// The timetable of the trips T1, T2 and T3 with these calls on a Tuesday, without walks. Each call is a row of trip, stop,
/// sequence, arrival, departure, pickup_type and drop_off_type.
pub fn of_calls(rt: &HostRuntime, calls: &str) -> Result<Timetable, Fail>
    ensures { IfOk result (λ table. stops_of table ≡ 5) }
{
    let header =
        "trip_id,stop_id,stop_sequence,arrival_time,departure_time,pickup_type,drop_off_type";
    let stop_times = format!(in rt.alloc(); "{header}\n{calls}")?;
    let feed = Feed {
        stop_times: &stop_times,
        transfers: "from_stop_id,to_stop_id\n",
        ..Feed::SAMPLE
    };
    with_stops(table_of(rt, feed, Span::TUESDAY)?, 5)
}
