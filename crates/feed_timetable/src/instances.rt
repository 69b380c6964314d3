//! The instances of the trips on the covered days.

ghost use Rattle.std.specs.Prelude.{◌≡◌, ◌<◌, ◌≤◌, ◌++◌, IfOk, IfSome, IfNone, OnOk, length};
ghost use Rattle.std.specs.List.{All};
ghost use Rattle.timetable.specs.Table.{IsRun, call_count};
ghost use Rattle.feed_timetable.specs.Instances.{calls_from, instances_from};
ghost use Rattle.feed_timetable.specs.Departures.{AreRepeats, rows_of};
ghost use Rattle.feed_timetable.specs.Counting.{AreCounts};
ghost use Rattle.feed_timetable.specs.Limits.{AreTimesOf};
ghost use Rattle.gtfs_tables.specs.Tables.{calls_of};
ghost use Rattle.feed_timetable.specs.Running.{AreRunning, listed_all, listed_first, repeated_from};

use crate::departures::{list_departures, times_by};
use crate::running::is_due;
use feed_ids::Groups;
use gtfs_tables::{CallTimes, Frequency, Tables, fill_times};
use service_days::{Cover, Days};
use std::alloc::{AllocError, Global};
use timetable::{Call, Instance, MOST_INSTANCES, StopId};

/// How many instances there are, and how many calls they have.
#[derive(Clone, Copy)]
pub struct Counts {
    pub instances: usize,
    pub calls: usize,
}

/// Counts the instances and their calls, from those of the day before the first covered day on; none if there are too many instances.
pub fn count_instances(
    tables: &Tables,
    cover: &Cover,
    running: &[Days],
    repeats: &Groups<Frequency>,
    before: Counts,
) -> Option<Counts>
    requires running { AreRunning tables.now cover.now running.now }
    requires repeats { AreRepeats tables.now repeats.now }
    requires before { AreCounts before (length (listed_first tables.now cover.now running.now (length tables.now.trips)))
        (call_count (listed_first tables.now cover.now running.now (length tables.now.trips))) }
    ensures instances { IfSome result (λ counts. counts.instances ≡ length (listed_all tables.now cover.now running.now)) }
    ensures few { IfSome result (λ counts. counts.instances ≤ MOST_INSTANCES) }
    ensures calls { IfSome result (λ counts. counts.calls ≡ call_count (listed_all tables.now cover.now running.now)) }
    ensures many { IfNone result (MOST_INSTANCES < length (listed_all tables.now cover.now running.now)) }
{
    let mut counts = before;
    for day in 0..cover.days() {
        for trip in 0..tables.trips().len() {
            if is_due(tables, running, day + 1, trip) {
                let times = times_by(repeats.of(trip), tables.trips().len());
                counts.instances += times;
                if counts.instances > MOST_INSTANCES {
                    return None;
                }
                counts.calls += times * tables.calls(trip).len();
            }
        }
    }
    Some(counts)
}

// A trip on the day of a number, if at this moment it is so far in its own times.
fn instance_at(
    alloc: Global,
    tables: &Tables,
    trip: usize,
    day: u8,
    times: &[CallTimes],
    moment: u32,
    from: u32,
) -> Result<Instance, AllocError>
    requires trip { trip < length tables.now.trips }
    requires several { 2 ≤ length (calls_of tables.now trip) }
    requires times { AreTimesOf (calls_of tables.now trip) times.now }
    requires moment { moment ≤ 2_851_199 }
    ensures made { IfOk result (λ run.
        run ≡ record { trip = trip; day = day; calls = calls_from moment from (calls_of tables.now trip) }) }
    ensures run { IfOk result (IsRun (length tables.now.stops)) }
{
    let rows = tables.calls(trip);
    let mut calls = Vec::with_capacity(alloc, rows.len())?;
    for (position, row) in rows.iter().enumerate() {
        let time = times[position];
        calls.push(Call {
            arrival: moment + time.arrival.saturating_sub(from),
            departure: moment + time.departure.saturating_sub(from),
            stop: StopId::new(row.stop),
            board: row.board,
            alight: row.alight,
        })?;
    }
    Ok(Instance::new(trip as u32, day, calls))
}

// A covered day: its number, and the moment at which it starts.
#[derive(Clone, Copy)]
struct Day {
    number: u8,
    start: u32,
}

// Lists a trip's instances on a day, one for each of these departures.
fn list_repeated(
    alloc: Global,
    tables: &Tables,
    trip: usize,
    day: Day,
    times: &[CallTimes],
    departures: &[u32],
    instances: &mut Vec<Instance>,
) -> Result<(), AllocError>
    requires trip { trip < length tables.now.trips }
    requires several { 2 ≤ length (calls_of tables.now trip) }
    requires times { AreTimesOf (calls_of tables.now trip) times.now }
    requires start { day.start ≤ 2_246_400 }
    requires early { All (λ time. time ≤ 604_799) departures.now }
    requires runs { All (IsRun (length tables.now.stops)) instances.old.items }
    ensures listed { OnOk result (instances.new.items ≡ instances.old.items
        ++ repeated_from tables.now day.start day.number trip departures.now) }
    ensures runs { OnOk result (All (IsRun (length tables.now.stops)) instances.new.items) }
{
    let first = times[0].departure;
    for departure in departures {
        let moment = day.start + *departure;
        let instance = instance_at(alloc, tables, trip, day.number, times, moment, first)?;
        instances.push(instance)?;
    }
    Ok(())
}

/// Room for the times of a trip's calls, and for its departures.
#[derive(Drop)]
pub struct Room {
    pub times: Vec<CallTimes>,
    pub departures: Vec<u32>,
}

// Lists a trip's instances on a day. These rows repeat it, if there are any.
fn list_trip(
    alloc: Global,
    tables: &Tables,
    rows: &[Frequency],
    trip: usize,
    day: Day,
    room: &mut Room,
    instances: &mut Vec<Instance>,
) -> Result<(), AllocError>
    requires trip { trip < length tables.now.trips }
    requires several { 2 ≤ length (calls_of tables.now trip) }
    requires rows { rows.now ≡ rows_of tables.now trip }
    requires start { day.start ≤ 2_246_400 }
    requires runs { All (IsRun (length tables.now.stops)) instances.old.items }
    ensures listed { OnOk result (instances.new.items ≡ instances.old.items ++ instances_from tables.now day.start day.number trip) }
    ensures runs { OnOk result (All (IsRun (length tables.now.stops)) instances.new.items) }
{
    fill_times(tables.calls(trip), &mut room.times)?;
    if rows.is_empty() {
        let (number, start) = (day.number, day.start);
        let instance = instance_at(alloc, tables, trip, number, &room.times, start, 0)?;
        instances.push(instance)?;
        return Ok(());
    }
    list_departures(rows, tables.trips().len(), &mut room.departures)?;
    list_repeated(
        alloc,
        tables,
        trip,
        day,
        &room.times,
        &room.departures,
        instances,
    )
}

/// The instances, by day, then by trip, then by departure, after these of the day before the first covered day.
pub fn list_instances(
    alloc: Global,
    tables: &Tables,
    cover: &Cover,
    running: &[Days],
    repeats: &Groups<Frequency>,
    before: Vec<Instance>,
    room: &mut Room,
) -> Result<Vec<Instance>, AllocError>
    requires running { AreRunning tables.now cover.now running.now }
    requires repeats { AreRepeats tables.now repeats.now }
    requires before { before.items ≡ listed_first tables.now cover.now running.now (length tables.now.trips) }
    requires runs { All (IsRun (length tables.now.stops)) before.items }
    ensures listed { IfOk result (λ instances. instances.items ≡ listed_all tables.now cover.now running.now) }
    ensures runs { IfOk result (λ instances. All (IsRun (length tables.now.stops)) instances.items) }
{
    let mut instances = before;
    for number in 0..cover.days() {
        let start = cover.day_start(number);
        let day = Day { number, start };
        for trip in 0..tables.trips().len() {
            if is_due(tables, running, number + 1, trip) {
                let rows = repeats.of(trip);
                list_trip(alloc, tables, rows, trip, day, room, &mut instances)?;
            }
        }
    }
    Ok(instances)
}
