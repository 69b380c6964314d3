//! The timetable of a feed's tables.

ghost use Rattle.std.specs.Prelude.{◌≡◌, ℕ, ◌≤◌, IfOk, IfErr, length};
ghost use Rattle.std.specs.List.{All};
ghost use Rattle.timetable.specs.Table.{IsRun};
ghost use Rattle.gtfs_tables.specs.Tables.{AreTables};
ghost use Rattle.feed_timetable.specs.Answers.{IsTimetable, IsFault};
ghost use Rattle.feed_timetable.specs.Index.{IsIndex};
ghost use Rattle.feed_timetable.specs.Limits.{IsFewInstances, AreFewWays, IsWaysFault};
ghost use Rattle.feed_timetable.specs.Departures.{AreRepeats};
ghost use Rattle.feed_timetable.specs.Running.{AreRunning, listed_all};
ghost use Rattle.gtfs_rows.specs.declared.fault.FaultKind.TheVariants.{TooMany};

use crate::before::list_before;
use crate::before_counts::count_before;
use crate::departures::repeats_of;
use crate::instances::{Room, count_instances, list_instances};
use crate::transfers::TransferIndex;
use crate::walks::{Ways, count_walks, list_walks};
use feed_ids::Groups;
use gtfs_tables::{FaultKind, FeedFault, FeedFile, Frequency, Tables};
use service_days::{Cover, Days};
use std::alloc::{AllocError, Global};
use timetable::{Instance, Timetable};

/// How many calls its instances have at most.
pub const MOST_CALLS: usize = 20_000_000;

/// How many walks it has at most.
pub const MOST_WALKS: usize = 4_000_000;

// The longest time of a feed, 167:59:59, in seconds.
const LONGEST_TIME: u32 = 604_799;

// There is too much of what a file gives.
fn too_many(file: FeedFile) -> FeedFault
    ensures { result ≡ record { kind = TooMany; file = file; row = 0 } }
{
    FeedFault {
        kind: FaultKind::TooMany,
        file,
        row: 0,
    }
}

// How many instances there are, if neither they nor their calls are too many.
fn few_instances(
    alloc: Global,
    tables: &Tables,
    cover: &Cover,
    running: &[Days],
    repeats: &Groups<Frequency>,
) -> Result<usize, FeedFault>
    requires valid { AreTables tables.now }
    requires running { AreRunning tables.now cover.now running.now }
    requires repeats { AreRepeats tables.now repeats.now }
    ensures ok { IfOk result (IsFewInstances tables.now cover.now running.now) }
    ensures fault { IfErr result (λ fault. (default_walk : ℕ) → IsFault tables.now cover.now default_walk fault) }
{
    let counted = count_before(alloc, tables, cover, running, repeats)?;
    let Some(before) = counted else {
        return Err(too_many(FeedFile::Trips));
    };
    let Some(counts) = count_instances(tables, cover, running, repeats, before) else {
        return Err(too_many(FeedFile::Trips));
    };
    if counts.calls > MOST_CALLS {
        return Err(too_many(FeedFile::StopTimes));
    }
    Ok(counts.instances)
}

// The walks and changes of all stops by the index of the tables, if the walks aren't too many.
fn few_ways_by(
    alloc: Global,
    tables: &Tables,
    index: &TransferIndex,
    default_walk: u32,
) -> Result<Ways, FeedFault>
    requires index { IsIndex tables.now index.now }
    requires short { default_walk ≤ 86_400 }
    ensures ok { IfOk result (AreFewWays tables.now default_walk) }
    ensures fault { IfErr result (IsWaysFault tables.now default_walk) }
{
    if count_walks(alloc, tables, index, default_walk)? > MOST_WALKS {
        return Err(too_many(FeedFile::Transfers));
    }
    Ok(list_walks(alloc, tables, index, default_walk)?)
}

// The same, with an index made for it.
fn few_ways(alloc: Global, tables: &Tables, default_walk: u32) -> Result<Ways, FeedFault>
    requires { default_walk ≤ 86_400 }
    ensures ok { IfOk result (AreFewWays tables.now default_walk) }
    ensures fault { IfErr result (IsWaysFault tables.now default_walk) }
{
    let index = TransferIndex::new(alloc, tables)?;
    few_ways_by(alloc, tables, &index, default_walk)
}

// The instances of all days. How many there are is known, as `count`.
fn list_all(
    alloc: Global,
    tables: &Tables,
    cover: &Cover,
    running: &[Days],
    repeats: &Groups<Frequency>,
    count: usize,
) -> Result<Vec<Instance>, AllocError>
    requires running { AreRunning tables.now cover.now running.now }
    requires repeats { AreRepeats tables.now repeats.now }
    ensures listed { IfOk result (λ instances. instances.items ≡ listed_all tables.now cover.now running.now) }
    ensures runs { IfOk result (λ instances. All (IsRun (length tables.now.stops)) instances.items) }
{
    let mut room = Room {
        times: Vec::new(alloc),
        departures: Vec::new(alloc),
    };
    let before = list_before(alloc, tables, cover, running, repeats, count, &mut room)?;
    list_instances(alloc, tables, cover, running, repeats, before, &mut room)
}

// The timetable, by the days on which each service runs and the rows that repeat each trip.
fn assemble_by(
    alloc: Global,
    tables: &Tables,
    cover: &Cover,
    running: &[Days],
    repeats: &Groups<Frequency>,
    default_walk: u32,
) -> Result<Timetable, FeedFault>
    requires valid { AreTables tables.now }
    requires running { AreRunning tables.now cover.now running.now }
    requires repeats { AreRepeats tables.now repeats.now }
    requires short { default_walk ≤ 86_400 }
    ensures ok { IfOk result (IsTimetable tables.now cover.now default_walk) }
    ensures fault { IfErr result (IsFault tables.now cover.now default_walk) }
{
    let count = few_instances(alloc, tables, cover, running, repeats)?;
    let ways = few_ways(alloc, tables, default_walk)?;
    let instances = list_all(alloc, tables, cover, running, repeats, count)?;
    let horizon = cover.day_start(cover.days() - 1) + LONGEST_TIME;
    Ok(Timetable::new(horizon, ways.changes, ways.walks, instances))
}

/// The timetable of the tables over the covered days. A transfer without a written time takes `default_walk` seconds.
///
/// It fails with `TooMany`, row 0, if there are too many instances (of trips.txt), calls (of stop_times.txt) or walks (of transfers.txt),
/// tested in this order before it takes memory for them, and if memory runs out.
pub fn assemble(
    alloc: Global,
    tables: &Tables,
    cover: &Cover,
    default_walk: u32,
) -> Result<Timetable, FeedFault>
    requires { default_walk ≤ 86_400 }
    ensures ok { IfOk result (IsTimetable tables.now cover.now default_walk) }
    ensures fault { IfErr result (IsFault tables.now cover.now default_walk) }
{
    let running = cover.running_days(alloc, tables)?;
    let repeats = repeats_of(alloc, tables)?;
    assemble_by(alloc, tables, cover, &running, &repeats, default_walk)
}
