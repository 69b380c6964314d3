//! How many of each a feed has.

ghost use Rattle.std.specs.Prelude.{◌≡◌, true, IfOk, IfErr, OnOk, is_some, length, sum_by};
ghost use Rattle.gtfs_tables.specs.Feed.{Feed, AreReaders};
ghost use Rattle.feed_report.specs.Counts.{AreCounts, IsCheckFault, IsMissing, counts_in};

use crate::service::{Service, service_of};
use civil_dates::Date;
use faults::Fault;
use gtfs_tables::{Files, Skipped, Tables, read_tables};
use std::alloc::Global;
use std::hash::RandomState;
use std::io::Read;

/// Which of the optional files of a feed aren't there. Of the two files of services one at least is.
#[derive(Clone, Copy)]
pub struct Missing {
    pub calendar: bool,
    pub calendar_dates: bool,
    pub transfers: bool,
    pub frequencies: bool,
}

/// How many of each a feed has. Rows that are skipped don't count.
#[derive(Drop)]
pub struct Counts {
    pub stops: usize,
    pub stations: usize,
    /// The services that trips name.
    pub services: usize,
    pub trips: usize,
    /// The calls of all trips.
    pub calls: usize,
    pub transfers: usize,
    /// The rows of frequencies.txt.
    pub frequencies: usize,
    /// The days of service; none if the feed has no day of service.
    pub service: Option<Service>,
    /// How many rows were left out without being at fault.
    pub skipped: Skipped,
    pub missing: Missing,
}

fn missing_of<R>(files: &Files<R>) -> Missing
    ensures { IsMissing files.now result }
{
    Missing {
        calendar: files.calendar.is_none(),
        calendar_dates: files.calendar_dates.is_none(),
        transfers: files.transfers.is_none(),
        frequencies: files.frequencies.is_none(),
    }
}

// How many calls all trips have.
fn calls_in(tables: &Tables) -> usize
    ensures { result ≡ sum_by (λ calls. length calls) tables.now.calls }
{
    let mut count = 0;
    for trip in 0..tables.trips().len() {
        count += tables.calls(trip).len();
    }
    count
}

fn counted(tables: &Tables, service: Option<Service>, missing: Missing) -> Counts
    ensures { result ≡ counts_in tables.now service missing }
{
    Counts {
        stops: tables.stops().len(),
        stations: tables.stations().len(),
        services: tables.services().len(),
        trips: tables.trips().len(),
        calls: calls_in(tables),
        transfers: tables.transfers().len(),
        frequencies: tables.frequencies().len(),
        service,
        skipped: tables.skipped(),
        missing,
    }
}

/// Reads the feed's files, counts what the feed has, and looks for its days of service. The trips of seven days are counted: from three
/// days before the date to three days after it, or from the first day of service on. Counts are given only if every test of the feed
/// holds; else the fault of the first test that doesn't.
///
/// Ids are looked up under `hash_keys`: if the system gave no randomness for them, that is the fault, and nothing is read. A reader that
/// fails (`ReadFailed`) and want of memory can come in place of any answer.
pub fn counts_of<R: Read + Drop>(
    alloc: Global,
    hash_keys: Option<RandomState>,
    date: Option<Date>,
    files: Files<R>,
) -> Result<Counts, Fault<'static>>
    ensures counts { (feed : Feed) → AreReaders R.remaining files feed → IfOk result (AreCounts feed date) }
    ensures keyed { OnOk result (is_some hash_keys ≡ true) }
    ensures fault { (feed : Feed) → AreReaders R.remaining files feed → IfErr result (IsCheckFault (is_some hash_keys) feed) }
{
    let Some(hash_keys) = hash_keys else {
        return Err(Fault::NoRandomness);
    };
    let missing = missing_of(&files);
    let tables = read_tables(alloc, hash_keys, files)?;
    let service = service_of(alloc, &tables, date)?;
    Ok(counted(&tables, service, missing))
}
