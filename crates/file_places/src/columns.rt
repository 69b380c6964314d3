//! The columns of a feed's files that a fault may be about (docs/FORMATS.md, the columns and the tests of a row).

use crate::forms::Form;
use gtfs_rows::{FaultKind, FeedFile};

// Weekdays.
const DAY: Form = Form::Digit(0, 1);

const STOPS: &[(&str, Form)] = &[("stop_id", Form::Filled)];

const TRIPS: &[(&str, Form)] = &[("trip_id", Form::Filled), ("service_id", Form::Filled)];

const CALENDAR: &[(&str, Form)] = &[
    ("service_id", Form::Filled),
    ("monday", DAY),
    ("tuesday", DAY),
    ("wednesday", DAY),
    ("thursday", DAY),
    ("friday", DAY),
    ("saturday", DAY),
    ("sunday", DAY),
    ("start_date", Form::Day),
    ("end_date", Form::Day),
];

const CALENDAR_DATES: &[(&str, Form)] = &[
    ("service_id", Form::Filled),
    ("date", Form::Day),
    ("exception_type", Form::Digit(1, 2)),
];

const STOP_TIMES: &[(&str, Form)] = &[
    ("stop_sequence", Form::Whole),
    ("arrival_time", Form::TimeOrNone),
    ("departure_time", Form::TimeOrNone),
    ("pickup_type", Form::DigitOrNone(3)),
    ("drop_off_type", Form::DigitOrNone(3)),
];

const TRANSFERS: &[(&str, Form)] = &[
    ("transfer_type", Form::DigitOrNone(5)),
    ("min_transfer_time", Form::WalkOrNone),
];

const FREQUENCIES: &[(&str, Form)] = &[
    ("start_time", Form::Time),
    ("end_time", Form::Time),
    ("headway_secs", Form::Positive),
    ("exact_times", Form::DigitOrNone(1)),
];

/// The columns of a file that take only some texts, in the order in which a row's texts are tested.
pub(crate) fn tested(file: FeedFile) -> &'static [(&'static str, Form)] {
    match file {
        FeedFile::Stops => STOPS,
        FeedFile::Trips => TRIPS,
        FeedFile::Calendar => CALENDAR,
        FeedFile::CalendarDates => CALENDAR_DATES,
        FeedFile::StopTimes => STOP_TIMES,
        FeedFile::Transfers => TRANSFERS,
        FeedFile::Frequencies => FREQUENCIES,
    }
}

/// The columns that a file must have.
pub(crate) fn required(file: FeedFile) -> &'static [&'static str] {
    match file {
        FeedFile::Stops => &["stop_id"],
        FeedFile::Trips => &["trip_id", "service_id"],
        FeedFile::Calendar => &[
            "service_id",
            "monday",
            "tuesday",
            "wednesday",
            "thursday",
            "friday",
            "saturday",
            "sunday",
            "start_date",
            "end_date",
        ],
        FeedFile::CalendarDates => &["service_id", "date", "exception_type"],
        FeedFile::StopTimes => &["trip_id", "stop_id", "stop_sequence"],
        FeedFile::Transfers => &["from_stop_id", "to_stop_id"],
        FeedFile::Frequencies => &["trip_id", "start_time", "end_time", "headway_secs"],
    }
}

// The columns that make a row's key.
fn key(file: FeedFile) -> &'static [&'static str] {
    match file {
        FeedFile::Stops => &["stop_id"],
        FeedFile::Trips => &["trip_id"],
        FeedFile::Calendar => &["service_id"],
        FeedFile::CalendarDates => &["service_id", "date"],
        FeedFile::StopTimes => &["trip_id", "stop_sequence"],
        FeedFile::Transfers => &[],
        FeedFile::Frequencies => &["trip_id", "start_time"],
    }
}

// The columns that name what another row has.
fn references(file: FeedFile) -> &'static [&'static str] {
    match file {
        FeedFile::Stops => &["parent_station"],
        FeedFile::StopTimes => &["trip_id", "stop_id"],
        FeedFile::Transfers => &["from_stop_id", "to_stop_id"],
        FeedFile::Frequencies => &["trip_id"],
        FeedFile::Trips | FeedFile::Calendar | FeedFile::CalendarDates => &[],
    }
}

/// The columns of a row that a fault of this kind is about, but for a text that its column doesn't take.
pub(crate) fn concerned(kind: FaultKind, file: FeedFile) -> &'static [&'static str] {
    match kind {
        FaultKind::DuplicateKey => key(file),
        FaultKind::UnknownReference => references(file),
        FaultKind::TimesDecrease | FaultKind::EndTimeMissing => {
            &["trip_id", "stop_sequence", "arrival_time", "departure_time"]
        }
        FaultKind::MissingFile
        | FaultKind::MissingColumn
        | FaultKind::BadField
        | FaultKind::TooMany
        | FaultKind::BadCsv
        | FaultKind::ReadFailed
        | FaultKind::Memory => &[],
    }
}
