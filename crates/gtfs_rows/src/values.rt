//! The rows of a feed, as values.

use crate::id::Id;
use civil_dates::Date;

/// A row of stops.txt that is a stop. Stops are numbered from 0 in file order.
#[derive(Drop)]
pub struct Stop {
    pub id: Id,
    /// The number of the station that it belongs to.
    pub station: Option<u32>,
}

/// A row of stops.txt that is a station. Stations are numbered from 0 in file order, apart from stops.
#[derive(Drop)]
pub struct Station {
    pub id: Id,
}

/// A row of trips.txt. Trips are numbered from 0 in file order.
#[derive(Drop)]
pub struct Trip {
    pub id: Id,
    /// The number of its service among those that trips name, in the order of their first trips.
    pub service: u32,
}

/// A row of calendar.txt: a service's weekdays, from Monday on, within a range of dates, both ends included.
#[derive(Drop)]
pub struct CalendarRow {
    pub service: Id,
    pub weekdays: [bool; 7],
    pub start: Date,
    pub end: Date,
}

/// What a row of calendar_dates.txt does to its date.
#[derive(Clone, Copy, PartialEq, Eq)]
pub enum DateChange {
    Added,
    Removed,
}

/// A row of calendar_dates.txt.
#[derive(Drop)]
pub struct CalendarDate {
    pub service: Id,
    pub date: Date,
    pub change: DateChange,
}

/// A row of stop_times.txt: one call of a trip at a stop. Times are seconds from noon less twelve hours of the service day.
#[derive(Clone, Copy)]
pub struct StopTime {
    /// The row of the file, counted from 1 after the header.
    pub row: u32,
    /// The number of the trip.
    pub trip: u32,
    /// The number of the stop.
    pub stop: u32,
    /// Where the call stands among those of its trip: they rise, and may leave numbers out.
    pub sequence: u32,
    pub arrival: Option<u32>,
    pub departure: Option<u32>,
    /// Whether passengers may board.
    pub board: bool,
    /// Whether passengers may alight.
    pub alight: bool,
}

/// What an id of transfers.txt names.
#[derive(Clone, Copy)]
pub enum Place {
    /// The stop of this number.
    Stop(u32),
    /// The station of this number.
    Station(u32),
}

/// The types of transfer that are kept.
#[derive(Clone, Copy)]
pub enum TransferType {
    /// Type 0, or none given.
    Recommended,
    /// Type 1.
    Timed,
    /// Type 2.
    MinimumTime,
    /// Type 3.
    NotPossible,
}

/// A row of transfers.txt.
#[derive(Clone, Copy)]
pub struct Transfer {
    pub from: Place,
    pub to: Place,
    pub transfer_type: TransferType,
    /// Seconds.
    pub min_transfer_time: Option<u32>,
}

/// A row of frequencies.txt: a trip departs at `start` and again each `headway` seconds, as long as that is before `end`. Times are
/// seconds from noon less twelve hours of the service day.
#[derive(Clone, Copy, PartialEq, Eq)]
pub struct Frequency {
    /// The number of the trip.
    pub trip: u32,
    pub start: u32,
    pub end: u32,
    /// From 1 on.
    pub headway: u32,
    /// Whether the trip departs exactly then (`exact_times` 1), or about then.
    pub exact: bool,
}

/// How many rows were left out without being at fault.
#[derive(Clone, Copy, Default)]
pub struct Skipped {
    /// Of stop_times.txt: rows without a stop.
    pub calls: usize,
    /// Of transfers.txt: rows of types 4 and 5, of a route or a trip, or of a place that is neither stop nor station.
    pub transfers: usize,
}
