//! Travel times to all stops over a window of departures.

ghost use Rattle.std.specs.Prelude.{◌≡◌, ℕ, ◌<◌, ◌≤◌, IfOk, IfSome, MatchOption, length};
ghost use Rattle.timetable.specs.Journeys.{foot};
ghost use Rattle.timetable.specs.Table.{stops_of};
ghost use Rattle.rounds.specs.Scratch.{IsMadeFor, IsAlike, rides_of};
ghost use Rattle.reaching.specs.Steps.{AreSteps, AreTimesBelow, Covers, IsNeverThere, steps_at};
ghost use Rattle.reaching.specs.TravelTimes.{AreTimes, AreTravelTimes};

use crate::gathering::gather_steps;
use crate::steps::Steps;
use crate::travel_time::TravelTimes;
use rounds::Scratch;
use std::alloc::{AllocError, Global};
use timetable::{StopId, Timetable};

// The seconds on foot from a stop to a stop, if one can walk there.
fn on_foot(table: &Timetable, from: StopId, to: StopId) -> Option<u32>
    ensures { result ≡ foot table.now from to }
{
    if from == to {
        return Some(0);
    }
    table.walk(from, to)
}

// The travel times from a stop to the stop of these steps. None: at no second of the window one gets there.
fn times_to(
    table: &Timetable,
    from: StopId,
    stop: StopId,
    first: u32,
    last: u32,
    steps: &Steps,
) -> Option<TravelTimes>
    requires some { first ≤ last }
    requires steps { AreSteps first last steps.now }
    ensures stop { IfSome result (λ times. times.stop ≡ stop) }
    ensures right { (k : ℕ) → Covers table.now k from stop first last steps.now
        → MatchOption result (IsNeverThere table.now k from stop first last) (AreTimes table.now k from first last) }
{
    let walk = on_foot(table, from, stop);
    let seconds = u64::from(last) + 1 - u64::from(first);
    let least = steps.rank(walk, first, last, 1)?;
    Some(TravelTimes {
        stop,
        least,
        median: steps.rank(walk, first, last, seconds.div_ceil(2)),
        greatest: steps.rank(walk, first, last, seconds),
    })
}

// The travel times to all stops, by their steps.
fn list_times(
    alloc: Global,
    table: &Timetable,
    from: StopId,
    first: u32,
    last: u32,
    all: &[Steps],
) -> Result<Vec<TravelTimes>, AllocError>
    requires some { first ≤ last }
    requires count { length all.now ≡ stops_of table.now }
    requires steps { (t : ℕ) → t < stops_of table.now → AreSteps first last (steps_at all.now t) }
    ensures { IfOk result (λ list. (k : ℕ)
        → ((t : ℕ) → t < stops_of table.now → Covers table.now k from t first last (steps_at all.now t))
        → AreTimesBelow table.now k from first last (stops_of table.now) list.items) }
{
    let mut list = Vec::new(alloc);
    for number in 0..table.stops() {
        let stop = StopId::new(number as u32);
        if let Some(times) = times_to(table, from, stop, first, last, &all[number]) {
            list.push(times)?;
        }
    }
    Ok(list)
}

/// The travel times from a stop over a window of departures, with at most as many rides as the scratch has. There is one element for each
/// stop that one reaches at some second of the window, by number. The way on foot counts, and one is at the stop itself at once.
///
/// The window goes from `first` to `last`: two moments, in seconds from the start of the first covered day, both of them in it. If the last
/// is before the first, the list is empty.
///
/// Each second of the window counts once, yet the call doesn't go from second to second. It runs the rounds at each of the stop's events
/// in the window, and at the one after it (RAPTOR's range query). It fails only if memory runs out. The scratch serves any further runs,
/// also after an error.
pub fn travel_times(
    alloc: Global,
    table: &Timetable,
    scratch: &mut Scratch,
    from: StopId,
    first: u32,
    last: u32,
) -> Result<Vec<TravelTimes>, AllocError>
    requires table { IsMadeFor scratch.old table.now }
    requires from { from < stops_of table.now }
    ensures same { IsAlike scratch.old scratch.new }
    ensures right { IfOk result (λ list. AreTravelTimes table.now (rides_of scratch.old) from first last list.items) }
{
    if last < first {
        return Ok(Vec::new(alloc));
    }
    let all = gather_steps(alloc, table, scratch, from, first, last)?;
    list_times(alloc, table, from, first, last, &all)
}
