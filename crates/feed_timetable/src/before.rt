//! The instances of the trips on the day before the first covered day.

ghost use Rattle.std.specs.Prelude.{◌≡◌, ◌<◌, ◌≤◌, ◌++◌, IfOk, OnOk, length};
ghost use Rattle.std.specs.List.{All};
ghost use Rattle.std.specs.Option.{option_to_list};
ghost use Rattle.timetable.specs.Table.{IsRun};
ghost use Rattle.feed_timetable.specs.Departures.{AreRepeats, rows_of};
ghost use Rattle.feed_timetable.specs.Instances.{calls_from, calls_left, instances_before, run_before};
ghost use Rattle.feed_timetable.specs.Limits.{AreTimesOf};
ghost use Rattle.gtfs_tables.specs.Tables.{AreTables, calls_of};
ghost use Rattle.feed_timetable.specs.Running.{AreRunning, listed_first, repeated_before};

use crate::departures::list_departures;
use crate::instances::Room;
use crate::running::is_due;
use feed_ids::Groups;
use gtfs_tables::{CallTimes, Frequency, Tables, fill_times};
use service_days::{Cover, Days};
use std::alloc::{AllocError, Global};
use timetable::{Call, Instance, StopId};

// The number of that day in an instance.
const DAY_BEFORE: u8 = 255;

// How far a trip is in its own times at a time of that day.
#[derive(Clone, Copy)]
struct Shift {
    time: u32,
    from: u32,
}

// The calls of a trip that are left on that day, which starts `before` seconds before moment 0.
fn calls_left(
    alloc: Global,
    tables: &Tables,
    trip: usize,
    times: &[CallTimes],
    shift: Shift,
    before: u32,
) -> Result<Vec<Call>, AllocError>
    requires trip { trip < length tables.now.trips }
    requires times { AreTimesOf (calls_of tables.now trip) times.now }
    requires time { shift.time ≤ 604_799 }
    ensures left { IfOk result (λ calls.
        calls.items ≡ calls_left before (calls_from shift.time shift.from (calls_of tables.now trip))) }
    ensures valid { IfOk result (λ _. AreTables tables.now) }
{
    let rows = tables.calls(trip);
    let mut calls = Vec::new(alloc);
    for (position, row) in rows.iter().enumerate() {
        let own = times[position];
        let arrival = shift.time + own.arrival.saturating_sub(shift.from);
        let departure = shift.time + own.departure.saturating_sub(shift.from);
        if before <= departure {
            calls.push(Call {
                arrival: arrival.saturating_sub(before),
                departure: departure - before,
                stop: StopId::new(row.stop),
                board: row.board,
                alight: row.alight,
            })?;
        }
    }
    Ok(calls)
}

// Lists a trip on that day with the calls that are left, if these are two or more.
fn list_left(
    alloc: Global,
    tables: &Tables,
    trip: usize,
    times: &[CallTimes],
    shift: Shift,
    before: u32,
    instances: &mut Vec<Instance>,
) -> Result<(), AllocError>
    requires trip { trip < length tables.now.trips }
    requires several { 2 ≤ length (calls_of tables.now trip) }
    requires times { AreTimesOf (calls_of tables.now trip) times.now }
    requires time { shift.time ≤ 604_799 }
    requires runs { All (IsRun (length tables.now.stops)) instances.old.items }
    ensures listed { OnOk result (instances.new.items ≡ instances.old.items
        ++ option_to_list (run_before trip (calls_left before (calls_from shift.time shift.from (calls_of tables.now trip))))) }
    ensures runs { OnOk result (All (IsRun (length tables.now.stops)) instances.new.items) }
{
    let calls = calls_left(alloc, tables, trip, times, shift, before)?;
    if calls.len() < 2 {
        return Ok(());
    }
    instances.push(Instance::new(trip as u32, DAY_BEFORE, calls))?;
    Ok(())
}

// Lists a trip's instances on that day, one for each of these departures at which two calls are left.
fn list_repeated(
    alloc: Global,
    tables: &Tables,
    trip: usize,
    times: &[CallTimes],
    departures: &[u32],
    before: u32,
    instances: &mut Vec<Instance>,
) -> Result<(), AllocError>
    requires trip { trip < length tables.now.trips }
    requires several { 2 ≤ length (calls_of tables.now trip) }
    requires times { AreTimesOf (calls_of tables.now trip) times.now }
    requires early { All (λ time. time ≤ 604_799) departures.now }
    requires runs { All (IsRun (length tables.now.stops)) instances.old.items }
    ensures listed { OnOk result (instances.new.items ≡ instances.old.items ++ repeated_before tables.now before trip departures.now) }
    ensures runs { OnOk result (All (IsRun (length tables.now.stops)) instances.new.items) }
{
    let from = times[0].departure;
    for time in departures {
        let shift = Shift { time: *time, from };
        list_left(alloc, tables, trip, times, shift, before, instances)?;
    }
    Ok(())
}

// Lists a trip's instances on that day. These rows repeat it, if there are any.
fn list_trip(
    alloc: Global,
    tables: &Tables,
    cover: &Cover,
    rows: &[Frequency],
    trip: usize,
    room: &mut Room,
    instances: &mut Vec<Instance>,
) -> Result<(), AllocError>
    requires trip { trip < length tables.now.trips }
    requires several { 2 ≤ length (calls_of tables.now trip) }
    requires rows { rows.now ≡ rows_of tables.now trip }
    requires runs { All (IsRun (length tables.now.stops)) instances.old.items }
    ensures listed { OnOk result (instances.new.items ≡ instances.old.items ++ instances_before tables.now cover.now trip) }
    ensures runs { OnOk result (All (IsRun (length tables.now.stops)) instances.new.items) }
{
    fill_times(tables.calls(trip), &mut room.times)?;
    let before = cover.before();
    if rows.is_empty() {
        let own = Shift { time: 0, from: 0 };
        return list_left(alloc, tables, trip, &room.times, own, before, instances);
    }
    list_departures(rows, tables.trips().len(), &mut room.departures)?;
    list_repeated(
        alloc,
        tables,
        trip,
        &room.times,
        &room.departures,
        before,
        instances,
    )
}

/// The instances of the day before the first covered day that reach into it, by trip, then by departure. How many there are on all days
/// is known, as `count`.
pub fn list_before(
    alloc: Global,
    tables: &Tables,
    cover: &Cover,
    running: &[Days],
    repeats: &Groups<Frequency>,
    count: usize,
    room: &mut Room,
) -> Result<Vec<Instance>, AllocError>
    requires running { AreRunning tables.now cover.now running.now }
    requires repeats { AreRepeats tables.now repeats.now }
    ensures listed { IfOk result (λ instances.
        instances.items ≡ listed_first tables.now cover.now running.now (length tables.now.trips)) }
    ensures runs { IfOk result (λ instances. All (IsRun (length tables.now.stops)) instances.items) }
{
    let mut instances = Vec::with_capacity(alloc, count)?;
    for trip in 0..tables.trips().len() {
        if is_due(tables, running, 0, trip) {
            let rows = repeats.of(trip);
            list_trip(alloc, tables, cover, rows, trip, room, &mut instances)?;
        }
    }
    Ok(instances)
}
