//! What the fronts and the one-byte changes of each file of the sample feed are read as, and how often. `tests/changes` works these rows
//! out from the rules of docs/FORMATS.md.

use gtfs_tables::FaultKind::{
    self, BadCsv, BadField, DuplicateKey, EndTimeMissing, MissingColumn, TimesDecrease,
    UnknownReference,
};
use gtfs_tables::FeedFile::{self, Calendar, CalendarDates, StopTimes, Stops, Transfers, Trips};

/// What a feed is read as: the kind, the file and the row of its fault; none if it has none.
pub type Reading = Option<(FaultKind, FeedFile, usize)>;

/// A reading, and how many fronts and how many changes of a file are read so.
pub type Row = (Reading, usize, usize);

/// Of stops.txt.
pub const STOPS_READ: [Row; 17] = [
    (None, 1, 8),
    (Some((MissingColumn, Stops, 0)), 7, 1014),
    (Some((DuplicateKey, Stops, 2)), 0, 2),
    (Some((DuplicateKey, Stops, 3)), 0, 4),
    (Some((DuplicateKey, Stops, 4)), 0, 6),
    (Some((DuplicateKey, Stops, 5)), 0, 8),
    (Some((BadCsv, Stops, 0)), 0, 1024),
    (Some((BadCsv, Stops, 1)), 0, 256),
    (Some((BadCsv, Stops, 2)), 0, 256),
    (Some((BadCsv, Stops, 3)), 0, 256),
    (Some((BadCsv, Stops, 4)), 0, 256),
    (Some((BadCsv, Stops, 5)), 0, 256),
    (Some((UnknownReference, StopTimes, 1)), 2, 249),
    (Some((UnknownReference, StopTimes, 2)), 2, 249),
    (Some((UnknownReference, StopTimes, 3)), 2, 249),
    (Some((UnknownReference, StopTimes, 5)), 2, 249),
    (Some((UnknownReference, Transfers, 2)), 2, 248),
];

/// Of trips.txt.
pub const TRIPS_READ: [Row; 14] = [
    (None, 2, 881),
    (Some((MissingColumn, Trips, 0)), 18, 2411),
    (Some((BadField, Trips, 1)), 3, 135),
    (Some((BadField, Trips, 2)), 3, 135),
    (Some((BadField, Trips, 3)), 3, 135),
    (Some((DuplicateKey, Trips, 2)), 0, 2),
    (Some((DuplicateKey, Trips, 3)), 0, 4),
    (Some((BadCsv, Trips, 0)), 0, 2432),
    (Some((BadCsv, Trips, 1)), 0, 768),
    (Some((BadCsv, Trips, 2)), 0, 768),
    (Some((BadCsv, Trips, 3)), 0, 768),
    (Some((UnknownReference, StopTimes, 1)), 2, 248),
    (Some((UnknownReference, StopTimes, 4)), 3, 374),
    (Some((UnknownReference, StopTimes, 6)), 3, 374),
];

/// Of calendar.txt.
pub const CALENDAR_READ: [Row; 5] = [
    (None, 3, 358),
    (Some((MissingColumn, Calendar, 0)), 87, 11174),
    (Some((BadField, Calendar, 1)), 33, 4089),
    (Some((BadCsv, Calendar, 0)), 0, 11264),
    (Some((BadCsv, Calendar, 1)), 0, 4480),
];

/// Of calendar_dates.txt.
pub const DATES_READ: [Row; 8] = [
    (None, 5, 615),
    (Some((MissingColumn, CalendarDates, 0)), 30, 3935),
    (Some((BadField, CalendarDates, 1)), 12, 1471),
    (Some((BadField, CalendarDates, 2)), 12, 1470),
    (Some((DuplicateKey, CalendarDates, 2)), 0, 2),
    (Some((BadCsv, CalendarDates, 0)), 0, 3968),
    (Some((BadCsv, CalendarDates, 1)), 0, 1792),
    (Some((BadCsv, CalendarDates, 2)), 0, 1792),
];

/// Of stop_times.txt.
pub const TIMES_READ: [Row; 45] = [
    (None, 78, 3797),
    (Some((MissingColumn, StopTimes, 0)), 29, 3808),
    (Some((BadField, StopTimes, 1)), 16, 2427),
    (Some((BadField, StopTimes, 2)), 16, 2427),
    (Some((BadField, StopTimes, 3)), 16, 2427),
    (Some((BadField, StopTimes, 4)), 16, 2427),
    (Some((BadField, StopTimes, 5)), 16, 2427),
    (Some((BadField, StopTimes, 6)), 16, 2427),
    (Some((BadField, StopTimes, 7)), 16, 2426),
    (Some((DuplicateKey, StopTimes, 2)), 0, 2),
    (Some((DuplicateKey, StopTimes, 3)), 0, 4),
    (Some((DuplicateKey, StopTimes, 4)), 0, 2),
    (Some((DuplicateKey, StopTimes, 5)), 0, 4),
    (Some((DuplicateKey, StopTimes, 6)), 0, 4),
    (Some((DuplicateKey, StopTimes, 7)), 0, 6),
    (Some((UnknownReference, StopTimes, 1)), 0, 643),
    (Some((UnknownReference, StopTimes, 2)), 0, 627),
    (Some((UnknownReference, StopTimes, 3)), 0, 627),
    (Some((UnknownReference, StopTimes, 4)), 0, 627),
    (Some((UnknownReference, StopTimes, 5)), 0, 627),
    (Some((UnknownReference, StopTimes, 6)), 0, 627),
    (Some((UnknownReference, StopTimes, 7)), 0, 627),
    (Some((UnknownReference, StopTimes, 8)), 0, 10),
    (Some((TimesDecrease, StopTimes, 1)), 0, 54),
    (Some((TimesDecrease, StopTimes, 2)), 0, 58),
    (Some((TimesDecrease, StopTimes, 3)), 0, 71),
    (Some((TimesDecrease, StopTimes, 4)), 0, 54),
    (Some((TimesDecrease, StopTimes, 5)), 0, 68),
    (Some((TimesDecrease, StopTimes, 6)), 0, 54),
    (Some((TimesDecrease, StopTimes, 7)), 0, 65),
    (Some((BadCsv, StopTimes, 0)), 0, 7424),
    (Some((BadCsv, StopTimes, 1)), 0, 3200),
    (Some((BadCsv, StopTimes, 2)), 0, 3200),
    (Some((BadCsv, StopTimes, 3)), 0, 3200),
    (Some((BadCsv, StopTimes, 4)), 0, 3200),
    (Some((BadCsv, StopTimes, 5)), 0, 3200),
    (Some((BadCsv, StopTimes, 6)), 0, 3200),
    (Some((BadCsv, StopTimes, 7)), 0, 3200),
    (Some((EndTimeMissing, StopTimes, 1)), 2, 137),
    (Some((EndTimeMissing, StopTimes, 2)), 2, 0),
    (Some((EndTimeMissing, StopTimes, 3)), 2, 0),
    (Some((EndTimeMissing, StopTimes, 4)), 2, 0),
    (Some((EndTimeMissing, StopTimes, 5)), 2, 0),
    (Some((EndTimeMissing, StopTimes, 6)), 2, 0),
    (Some((EndTimeMissing, StopTimes, 7)), 2, 0),
];

/// Of transfers.txt.
pub const TRANSFERS_READ: [Row; 10] = [
    (None, 49, 4117),
    (Some((MissingColumn, Transfers, 0)), 23, 3046),
    (Some((BadField, Transfers, 1)), 0, 962),
    (Some((BadField, Transfers, 2)), 0, 951),
    (Some((UnknownReference, Transfers, 1)), 2, 309),
    (Some((UnknownReference, Transfers, 2)), 2, 257),
    (Some((UnknownReference, Transfers, 3)), 0, 10),
    (Some((BadCsv, Transfers, 0)), 0, 7168),
    (Some((BadCsv, Transfers, 1)), 0, 1280),
    (Some((BadCsv, Transfers, 2)), 0, 1280),
];
