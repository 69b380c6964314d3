//! The feed of one trip, by readers that fail if they are to.

use gtfs_tables::{FeedFile, Files};
use std::io;
use std::io::{ErrorKind, Read};

const STOPS: &[u8] = b"stop_id\nA\nB\n";

const TRIPS: &[u8] = b"trip_id,service_id\nT,WK\n";

const CALENDAR: &[u8] =
    b"service_id,monday,tuesday,wednesday,thursday,friday,saturday,sunday,start_date,end_date\n\
WK,1,1,1,1,1,1,1,20240101,20241231\n";

const CALENDAR_DATES: &[u8] = b"service_id,date,exception_type\n";

const STOP_TIMES: &[u8] = b"trip_id,stop_id,stop_sequence,arrival_time,departure_time\n\
T,A,1,08:00:00,08:00:00\nT,B,2,08:10:00,08:10:00\n";

const TRANSFERS: &[u8] = b"from_stop_id,to_stop_id,transfer_type\n";

const FREQUENCIES: &[u8] = b"trip_id,start_time,end_time,headway_secs\n";

/// A reader of these bytes, which fails at their end if it is to fail.
#[derive(Drop)]
pub struct Source {
    bytes: &'static [u8],
    fails: Option<ErrorKind>,
}

impl Read for Source {
    fn read(&mut self, buf: &mut [u8]) -> io::Result<usize> {
        match self.fails {
            Some(kind) if self.bytes.is_empty() => Err(io::Error::from(kind)),
            _ => self.bytes.read(buf),
        }
    }
}

/// A file whose reader fails, and how.
pub type Failure = Option<(FeedFile, ErrorKind)>;

// A file of these bytes, half of which are read if its reader fails.
fn reader_of(file: FeedFile, bytes: &'static [u8], failure: Failure) -> Option<Source> {
    match failure {
        Some((failing, kind)) if failing == file => Some(Source {
            bytes: &bytes[..bytes.len() / 2],
            fails: Some(kind),
        }),
        _ => Some(Source { bytes, fails: None }),
    }
}

/// A feed of one trip from A to B.
pub fn feed(failure: Failure) -> Files<Source> {
    Files {
        stops: reader_of(FeedFile::Stops, STOPS, failure),
        trips: reader_of(FeedFile::Trips, TRIPS, failure),
        calendar: reader_of(FeedFile::Calendar, CALENDAR, failure),
        calendar_dates: reader_of(FeedFile::CalendarDates, CALENDAR_DATES, failure),
        stop_times: reader_of(FeedFile::StopTimes, STOP_TIMES, failure),
        transfers: reader_of(FeedFile::Transfers, TRANSFERS, failure),
        frequencies: reader_of(FeedFile::Frequencies, FREQUENCIES, failure),
    }
}

/// The file of that path that lists stops: both at `stops`, and the first of them at `broken` and `starved`, whose readers fail then.
/// There is no other.
pub fn list_of(path: &str) -> io::Result<Source> {
    match path {
        "stops" => Ok(Source {
            bytes: b"A\nB\n",
            fails: None,
        }),
        "broken" => Ok(Source {
            bytes: b"A\n",
            fails: Some(ErrorKind::Other),
        }),
        "starved" => Ok(Source {
            bytes: b"A\n",
            fails: Some(ErrorKind::OutOfMemory),
        }),
        _ => Err(io::Error::from(ErrorKind::NotFound)),
    }
}
