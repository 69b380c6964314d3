//! What is found by two ways, from every stop of a town that is made up to every other.

ghost use Rattle.std.specs.Prelude.{◌≡◌, ◌<◌, ◌≤◌, length, OnOk};
ghost use Rattle.timetable.specs.Table.{stops_of};
ghost use Rattle.rounds.specs.Scratch.{GoesOn, IsMadeFor, MayGoOn, rides_of, rounds_of, source_of};

use direct_connections::Network;
use rounds::{Rides, RoundView, Scratch, plain_rounds};
use sample_feed::{Span, town, town_on};
use std::alloc::Global;
use std::sync::Arc;
use std::test::Fail;
use timetable::{LATEST_MOMENT, StopId, Timetable, plain_direct};

// Whether two runs found the same arrivals at a stop, by the same numbers of rides.
fn are_alike(plain: &RoundView<'_>, lines: &RoundView<'_>, stop: StopId) -> bool
    requires plain { length (rounds_of plain.now) ≡ 3 }
    requires lines { length (rounds_of lines.now) ≡ 3 }
{
    for rides in 1..4_u8 {
        let same = plain.arrival(rides, stop) == lines.arrival(rides, stop);
        if !same || plain.pattern(rides, stop).is_some() != lines.pattern(rides, stop).is_some() {
            return false;
        }
    }
    true
}

// Whether the rounds that look at each trip, and those by lines, which come after another run, find the same from a stop at a moment.
fn are_alike_from(
    alloc: Global,
    table: &Timetable,
    source: StopId,
    depart: u32,
) -> Result<bool, Fail>
    requires source { source < stops_of table.now }
    requires early { depart ≤ LATEST_MOMENT }
{
    let plain = plain_rounds(alloc, table, source, depart, Rides::new(3))?;
    let mut scratch = Scratch::new(alloc, table, Rides::new(3))?;
    let _ = scratch.run(table, source, 0)?;
    let lines = scratch.run(table, source, depart)?;
    for number in 0..12_u32 {
        if !are_alike(&plain.view(), &lines, StopId::new(number)) {
            return Ok(false);
        }
    }
    Ok(true)
}

#[test]
fn rounds_by_lines_and_by_trips(rt: HostRuntime) -> Result<(), Fail> {
    let table = town(&rt, 1)?;
    for source in 0..12_u32 {
        for hour in 6..10_u32 {
            assert!(rt; are_alike_from(rt.alloc(), &table, StopId::new(source), 3_600 * hour)?);
        }
    }
    Ok(())
}

// Whether a run that keeps the labels of later departures finds the same as the rounds that look at each trip.
fn is_kept_alike(
    alloc: Global,
    table: &Timetable,
    source: StopId,
    depart: u32,
    scratch: &mut Scratch,
) -> Result<bool, Fail>
    requires table { IsMadeFor scratch.old table.now }
    requires rides { rides_of scratch.old ≡ 3 }
    requires from { source_of scratch.old ≡ source }
    requires source { source < stops_of table.now }
    requires early { depart ≤ LATEST_MOMENT }
    requires kept { MayGoOn table.now depart scratch.old }
    ensures { OnOk result (GoesOn table.now depart scratch.old scratch.new) }
{
    let plain = plain_rounds(alloc, table, source, depart, Rides::new(3))?;
    let kept = scratch.run_kept(table, depart)?;
    for number in 0..12_u32 {
        if !are_alike(&plain.view(), &kept, StopId::new(number)) {
            return Ok(false);
        }
    }
    Ok(true)
}

// The same from a stop at one moment after the other, from the second night back to the first morning.
fn are_kept_alike_from(alloc: Global, table: &Timetable, source: StopId) -> Result<bool, Fail>
    requires { source < stops_of table.now }
{
    let mut scratch = Scratch::new(alloc, table, Rides::new(3))?;
    scratch.restart(source);
    for step in 0..120_u32 {
        let depart = 140_000 - 1_000 * step;
        if !is_kept_alike(alloc, table, source, depart, &mut scratch)? {
            return Ok(false);
        }
    }
    Ok(true)
}

// A town on two days, of which the first has 23 hours.
#[test]
fn rounds_kept_and_by_trips(rt: HostRuntime) -> Result<(), Fail> {
    let span = Span {
        first: 10,
        days: 2,
        zone: "WET0WEST,J10/2,J300/2",
        default_walk: 120,
    };
    let table = town_on(&rt, 3, span)?;
    for source in 0..12_u32 {
        assert!(rt; are_kept_alike_from(rt.alloc(), &table, StopId::new(source))?);
    }
    Ok(())
}

// Whether the search among lines finds the arrival that the search among all trips finds.
fn is_same_ride(network: &Network, from: StopId, to: StopId, ready: u32) -> bool {
    let table = network.timetable();
    let plain = plain_direct(table, from, to, ready).map(|leg| table.arrival_of(leg));
    let by_lines = network
        .earliest(from, to, ready)
        .map(|leg| table.arrival_of(leg));
    plain == by_lines
}

// From before the first trip until after the last of two days.
#[test]
fn rides_by_lines_and_by_trips(rt: HostRuntime) -> Result<(), Fail> {
    let network = Network::of(rt.alloc(), Arc::new(rt.alloc(), town(&rt, 2)?)?)?;
    for pair in 0..144_u32 {
        for step in 0..120_u32 {
            let (from, to) = (StopId::new(pair / 12), StopId::new(pair % 12));
            assert!(rt; is_same_ride(&network, from, to, 21_000 + step * 1_000));
        }
    }
    Ok(())
}
