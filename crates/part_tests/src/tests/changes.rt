//! Each front of a file of the sample feed, and each change of one of its bytes.

use super::counts::{
    CALENDAR_READ, DATES_READ, Reading, Row, STOPS_READ, TIMES_READ, TRANSFERS_READ, TRIPS_READ,
};
use gtfs_tables::{FeedFile, Files, read_tables};
use sample_feed::Feed;
use std::alloc::Global;
use std::hash::RandomState;
use std::process::Abort;
use std::test::Fail;

// The sample feed, with a day on which its service doesn't run and one on which it does.
const FEED: Feed<'static> = Feed {
    calendar_dates: "service_id,date,exception_type\nWK,20240103,2\nWK,20240106,1\n",
    ..Feed::SAMPLE
};

// The files of the feed.
fn files() -> Files<&'static [u8]> {
    Files {
        stops: Some(FEED.stops.as_bytes()),
        trips: Some(FEED.trips.as_bytes()),
        calendar: Some(FEED.calendar.as_bytes()),
        calendar_dates: Some(FEED.calendar_dates.as_bytes()),
        stop_times: Some(FEED.stop_times.as_bytes()),
        transfers: Some(FEED.transfers.as_bytes()),
        frequencies: None,
    }
}

// The files of the feed, one of them with other bytes.
fn files_with(file: FeedFile, bytes: &[u8]) -> Files<&[u8]> {
    let bytes = Some(bytes);
    match file {
        FeedFile::Stops => Files {
            stops: bytes,
            ..files()
        },
        FeedFile::Trips => Files {
            trips: bytes,
            ..files()
        },
        FeedFile::Calendar => Files {
            calendar: bytes,
            ..files()
        },
        FeedFile::CalendarDates => Files {
            calendar_dates: bytes,
            ..files()
        },
        FeedFile::StopTimes => Files {
            stop_times: bytes,
            ..files()
        },
        FeedFile::Transfers => Files {
            transfers: bytes,
            ..files()
        },
        FeedFile::Frequencies => Files {
            frequencies: bytes,
            ..files()
        },
    }
}

// How a file is read if it is changed: which file it is, and what its fronts and changes are known to be read as.
#[derive(Clone, Copy)]
struct Changes<'a> {
    alloc: Global,
    hash_keys: RandomState,
    file: FeedFile,
    known: &'a [Row],
}

impl<'a> Changes<'a> {
    fn of(rt: &HostRuntime, file: FeedFile, known: &'a [Row]) -> Result<Changes<'a>, Fail> {
        Ok(Changes {
            alloc: rt.alloc(),
            hash_keys: RandomState::new(rt)?,
            file,
            known,
        })
    }

    // What the feed is read as with these bytes in that file.
    fn reading(&self, bytes: &[u8]) -> Reading {
        match read_tables(self.alloc, self.hash_keys, files_with(self.file, bytes)) {
            Ok(_) => None,
            Err(fault) => Some((fault.kind, fault.file, fault.row)),
        }
    }

    // Counts one more of what the feed is read as, if that is known.
    fn count(&self, counts: &mut [usize], bytes: &[u8]) -> Result<(), Fail> {
        let reading = self.reading(bytes);
        let at = self.known.iter().position(|row| row.0 == reading);
        let count = at
            .and_then(|at| counts.get_mut(at))
            .ok_or("another reading")?;
        *count = count.saturating_add(1);
        Ok(())
    }

    // How often each known reading comes over all fronts of these bytes, from none of them to all but one.
    fn of_fronts(&self, bytes: &[u8]) -> Result<Vec<usize>, Fail> {
        let mut counts = vec![in self.alloc; 0; self.known.len()]?;
        for len in 0..bytes.len() {
            self.count(&mut counts, bytes.get(..len).ok_or("no such front")?)?;
        }
        Ok(counts)
    }

    // How often each known reading comes over all changes of one of these bytes.
    fn of_bytes(&self, bytes: &mut [u8]) -> Result<Vec<usize>, Fail> {
        let mut counts = vec![in self.alloc; 0; self.known.len()]?;
        for place in 0..bytes.len() {
            let was = bytes.get(place).copied().ok_or("no such place")?;
            for value in 0..=255 {
                if value != was {
                    *bytes.get_mut(place).ok_or("no such place")? = value;
                    self.count(&mut counts, bytes)?;
                }
            }
            *bytes.get_mut(place).ok_or("no such place")? = was;
        }
        Ok(counts)
    }
}

// Compares the counts of a file with what is known of it.
fn check(rt: &impl Abort, changes: &Changes<'_>, text: &str) -> Result<(), Fail> {
    let known = changes.known;
    let mut bytes = text.as_bytes().to_vec(changes.alloc)?;
    let fronts = changes.of_fronts(&bytes)?;
    assert!(rt;
        fronts.iter().eq(known.iter().map(|row| &row.1)),
        "{fronts:?}"
    );
    let changed = changes.of_bytes(&mut bytes)?;
    assert!(rt;
        changed.iter().eq(known.iter().map(|row| &row.2)),
        "{changed:?}"
    );
    Ok(())
}

#[test]
fn stops_changed(rt: HostRuntime) -> Result<(), Fail> {
    let changes = Changes::of(&rt, FeedFile::Stops, &STOPS_READ)?;
    check(&rt, &changes, FEED.stops)
}

#[test]
fn trips_changed(rt: HostRuntime) -> Result<(), Fail> {
    let changes = Changes::of(&rt, FeedFile::Trips, &TRIPS_READ)?;
    check(&rt, &changes, FEED.trips)
}

#[test]
fn calendar_changed(rt: HostRuntime) -> Result<(), Fail> {
    let changes = Changes::of(&rt, FeedFile::Calendar, &CALENDAR_READ)?;
    check(&rt, &changes, FEED.calendar)
}

#[test]
fn calendar_dates_changed(rt: HostRuntime) -> Result<(), Fail> {
    let changes = Changes::of(&rt, FeedFile::CalendarDates, &DATES_READ)?;
    check(&rt, &changes, FEED.calendar_dates)
}

#[test]
fn stop_times_changed(rt: HostRuntime) -> Result<(), Fail> {
    let changes = Changes::of(&rt, FeedFile::StopTimes, &TIMES_READ)?;
    check(&rt, &changes, FEED.stop_times)
}

#[test]
fn transfers_changed(rt: HostRuntime) -> Result<(), Fail> {
    let changes = Changes::of(&rt, FeedFile::Transfers, &TRANSFERS_READ)?;
    check(&rt, &changes, FEED.transfers)
}
