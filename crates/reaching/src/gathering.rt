//! The steps of all stops over a window of departures, by the rounds at each of its events.

ghost use Rattle.std.specs.Prelude.{◌≡◌, ℕ, ◌<◌, ◌≤◌, [], IfOk, OnOk, length};
ghost use Rattle.timetable.specs.Front.{IsSooner};
ghost use Rattle.timetable.specs.Journeys.{IsLeast};
ghost use Rattle.timetable.specs.Table.{stops_of};
ghost use Rattle.rounds.specs.Answers.{ArrivesWithin};
ghost use Rattle.rounds.specs.Mark.{arrival_in, moment_in};
ghost use Rattle.rounds.specs.Scratch.{IsMadeFor, IsAlike, MayGoOn, GoesOn, rides_of, rounds_of, before_of, source_of, kept_of};
ghost use Rattle.reaching.specs.Steps.{AddsStep, Covers, steps_at};

use crate::moments::{count_before, count_up_to};
use crate::steps::Steps;
use rounds::{RoundView, Scratch};
use std::alloc::{AllocError, Global};
use timetable::{LATEST_MOMENT, StopId, Timetable};

// No steps at each of the stops.
fn no_steps(alloc: Global, stops: usize) -> Result<Vec<Steps>, AllocError>
    ensures count { IfOk result (λ all. length all.items ≡ stops) }
    ensures none { IfOk result (λ all. (t : ℕ) → steps_at all.items t ≡ []) }
{
    let mut all = Vec::with_capacity(alloc, stops)?;
    for _ in 0..stops {
        all.push(Steps::none(alloc))?;
    }
    Ok(all)
}

// Adds a step up to a moment at each stop at which one is sooner than in the run before.
fn add_steps(
    view: &RoundView<'_>,
    rides: u8,
    until: u32,
    all: &mut Vec<Steps>,
) -> Result<(), AllocError>
    requires few { rides ≤ length (rounds_of view.now) }
    requires known { (t : ℕ) → IsSooner (arrival_in (rounds_of view.now) rides t) (moment_in (before_of view.now) rides t)
        → t < length all.old.items }
    ensures count { OnOk result (length all.new.items ≡ length all.old.items) }
    ensures added { OnOk result ((t : ℕ) → AddsStep until (arrival_in (rounds_of view.now) rides t) (moment_in (before_of view.now) rides t)
        (steps_at all.old.items t) (steps_at all.new.items t)) }
{
    for stop in view.lowered(rides) {
        if let Some(arrival) = view.arrival(rides, *stop) {
            all[stop.number()].push(until, arrival)?;
        }
    }
    Ok(())
}

// Adds the steps of an event, up to a moment, if the scratch has the rounds of the next later one.
fn add_event(
    table: &Timetable,
    scratch: &mut Scratch,
    event: u32,
    until: u32,
    all: &mut Vec<Steps>,
) -> Result<(), AllocError>
    requires table { IsMadeFor scratch.old table.now }
    requires source { source_of scratch.old < stops_of table.now }
    requires early { event ≤ LATEST_MOMENT }
    requires kept { MayGoOn table.now event scratch.old }
    requires count { length all.old.items ≡ stops_of table.now }
    ensures on { GoesOn table.now event scratch.old scratch.new }
    ensures least { (t : ℕ) → t < stops_of table.now
        → IsLeast (ArrivesWithin table.now (source_of scratch.old) event (rides_of scratch.old) t)
        (arrival_in (kept_of scratch.new) (rides_of scratch.old) t) }
    ensures count { OnOk result (length all.new.items ≡ length all.old.items) }
    ensures added { OnOk result ((t : ℕ) → t < stops_of table.now
        → AddsStep until (arrival_in (kept_of scratch.new) (rides_of scratch.old) t)
        (arrival_in (kept_of scratch.old) (rides_of scratch.old) t)
        (steps_at all.old.items t) (steps_at all.new.items t)) }
{
    let rides = scratch.rides();
    let view = scratch.run_kept(table, event)?;
    add_steps(&view, rides.number(), until, all)
}

/// The steps of each stop of the timetable, for all departures from a stop from `first` to `last`. It runs the rounds at each of the
/// stop's events in this window, and at the one after it (RAPTOR's range query). It fails only if memory runs out.
pub(crate) fn gather_steps(
    alloc: Global,
    table: &Timetable,
    scratch: &mut Scratch,
    from: StopId,
    first: u32,
    last: u32,
) -> Result<Vec<Steps>, AllocError>
    requires table { IsMadeFor scratch.old table.now }
    requires from { from < stops_of table.now }
    requires some { first ≤ last }
    ensures same { IsAlike scratch.old scratch.new }
    ensures count { IfOk result (λ all. length all.items ≡ stops_of table.now) }
    ensures right { IfOk result (λ all. (t : ℕ) → t < stops_of table.now
        → Covers table.now (rides_of scratch.old) from t first last (steps_at all.items t)) }
{
    let events = scratch.departures(alloc, table, from)?;
    let start = count_before(&events, first);
    let past = count_up_to(&events, last);
    let end = events.len().min(past + 1);
    let mut all = no_steps(alloc, table.stops())?;
    scratch.restart(from);
    for index in (start..end).rev() {
        let event = events[index];
        add_event(table, scratch, event, event.min(last), &mut all)?;
    }
    Ok(all)
}
