//! A planner of the sample feed, on a disk in memory.

ghost use Rattle.std.specs.Prelude.{◌≡◌, ◌<◌, ◌≤◌, IfSome};
ghost use Rattle.serving.specs.Answers.{IsOver};

use board::Reader;
use civil_dates::Date;
use disk_model::MemDisk;
use feed_basis::{Basis, basis_of};
use gtfs_tables::Files;
use options::Settings;
use pattern_query::Refusal;
use planner::{AskFault, Desk, Opened, Planner};
use precomputing::{Gate, Outcome, precompute};
use sample_feed::Feed;
use section_store::Step;
use std::alloc::Global;
use std::hash::RandomState;
use std::sync::{Arc, Wait};
use std::test::Fail;
use std::thread::Threads;
use timetable::Rides;

// 08:00:00.
const EIGHT: u32 = 28_800;

/// What is asked of: the sample feed on a Tuesday, for journeys of at most three rides.
pub fn basis(rt: &HostRuntime) -> Result<Basis, Fail> {
    basis_over(rt, Feed::SAMPLE)
}

/// The same over another feed.
pub fn basis_over(rt: &HostRuntime, feed: Feed<'_>) -> Result<Basis, Fail> {
    let settings = Settings {
        feed: "feed",
        date: "20240102",
        days: 1,
        zone: "UTC0",
        rides: 3,
        default_walk: 120,
    };
    let files = Files {
        stops: Some(feed.stops.as_bytes()),
        trips: Some(feed.trips.as_bytes()),
        calendar: Some(feed.calendar.as_bytes()),
        calendar_dates: Some(feed.calendar_dates.as_bytes()),
        stop_times: Some(feed.stop_times.as_bytes()),
        transfers: Some(feed.transfers.as_bytes()),
        frequencies: match feed.frequencies {
            Some(rows) => Some(rows.as_bytes()),
            None => None,
        },
    };
    let keys = RandomState::new(rt)?;
    match basis_of(
        rt.alloc(),
        Some(keys),
        &settings,
        Date::new(2024, 1, 2)?,
        files,
    ) {
        Ok(basis) => Ok(basis),
        Err(_) => Err(Fail::new("a fault of the sample feed")),
    }
}

/// A planner with an empty store, and one reader.
pub struct Setting {
    pub planner: Planner,
    pub desk: Desk<MemDisk>,
    pub reader: Reader,
}

/// Opens a planner with an empty store. None if memory runs out.
pub fn open<R: Wait>(rt: &R, alloc: Global, basis: &Basis) -> Option<Setting>
    ensures over { IfSome result (λ s. IsOver basis.now s.planner) }
    ensures desk { IfSome result (λ s. s.desk.form ≡ s.planner.form) }
    ensures ready { IfSome result (λ s. s.desk.next ≡ Step.WriteBody) }
    ensures reader { IfSome result (λ s. s.reader.origin.form ≡ s.planner.form) }
    ensures board { IfSome result (λ s. s.reader.told.book ≡ s.desk.board.told.book) }
{
    open_on(rt, alloc, basis, MemDisk::new(alloc))
}

/// Opens a planner with the store of a disk. None if that fails.
pub fn open_on<R: Wait>(rt: &R, alloc: Global, basis: &Basis, disk: MemDisk) -> Option<Setting>
    ensures over { IfSome result (λ s. IsOver basis.now s.planner) }
    ensures desk { IfSome result (λ s. s.desk.form ≡ s.planner.form) }
    ensures ready { IfSome result (λ s. s.desk.next ≡ Step.WriteBody) }
    ensures reader { IfSome result (λ s. s.reader.origin.form ≡ s.planner.form) }
    ensures board { IfSome result (λ s. s.reader.told.book ≡ s.desk.board.told.book) }
{
    let Ok(network) = basis.network(alloc) else {
        return None;
    };
    let Ok(names) = Arc::try_clone(basis.shared_names()) else {
        return None;
    };
    let Ok(opened) = Planner::open(alloc, rt, disk, network, names, Rides::new(3), 1) else {
        return None;
    };
    let Opened {
        planner,
        desk,
        mut readers,
    } = opened;
    let Some(reader) = readers.pop() else {
        let _disk = desk.into_disk(rt);
        return None;
    };
    Some(Setting {
        planner,
        desk,
        reader,
    })
}

/// Builds all trees; the reader learns which are stored.
pub fn build_all<R: Threads + Wait + Sync, G: Gate + Sync>(
    rt: &R,
    alloc: Global,
    desk: Desk<MemDisk>,
    planner: &Planner,
    reader: Reader,
    workers: usize,
    gate: &G,
) -> (Desk<MemDisk>, Outcome, Reader)
    requires desk { desk.form ≡ planner.now.form }
    requires ready { desk.next ≡ Step.WriteBody }
    requires board { reader.told.book ≡ desk.board.told.book }
    requires workers { (0 < workers) × (workers ≤ 64) }
    ensures reader { result.2.origin ≡ reader.origin }
{
    let (desk, outcome) = precompute(alloc, rt, desk, planner, workers, gate);
    let mut reader = reader;
    reader.learn(&desk.tell());
    (desk, outcome, reader)
}

/// What was replied to a question.
#[derive(Clone, Copy, Debug, PartialEq, Eq)]
pub enum Seen {
    /// The tree of B isn't stored.
    Lacking,
    /// The best is there at 08:40:00 by one ride.
    Found,
    /// The board is closed.
    Refused,
    Other,
}

/// Asks from B to D at eight.
pub fn ask(planner: &Planner, reader: Reader) -> (Reader, Seen)
    requires { reader.origin.form ≡ planner.now.form }
    ensures origin { result.0.origin ≡ reader.origin }
    ensures book { result.0.told.book ≡ reader.told.book }
{
    match planner.ask(reader, "B", "D", EIGHT) {
        (reader, Ok(answer)) => match answer.points() {
            [point] if point.rides() == 1 && point.arrival() == 31_200 => (reader, Seen::Found),
            _ => (reader, Seen::Other),
        },
        (reader, Err(AskFault::Question(Refusal::NotStored("B")))) => (reader, Seen::Lacking),
        (reader, Err(AskFault::BoardRefused)) => (reader, Seen::Refused),
        (reader, Err(_)) => (reader, Seen::Other),
    }
}
