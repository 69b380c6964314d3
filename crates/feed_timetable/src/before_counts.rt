//! How many instances there are on the day before the first covered day. They are counted before one is made.

ghost use Rattle.std.specs.Prelude.{◌≡◌, ◌+◌, ◌<◌, ◌≤◌, ◌++◌, List, IfOk, IfSome, length, sum_by};
ghost use Rattle.std.specs.List.{All, flat_map};
ghost use Rattle.timetable.specs.Table.{call_count};
ghost use Rattle.feed_timetable.specs.Departures.{AreRepeats, departures, rows_of};
ghost use Rattle.feed_timetable.specs.Instances.{calls_from, calls_left, instances_before};
ghost use Rattle.feed_timetable.specs.Limits.{AreTimesOf};
ghost use Rattle.feed_timetable.specs.Counting.{AreFewCounts, Counted, weight, call_weight, weight_at, call_weight_at};
ghost use Rattle.gtfs_frequencies.specs.Frequencies.{IsFrequency};
ghost use Rattle.gtfs_rows.specs.declared.values.StopTime.{StopTime as StopTimeData};
ghost use Rattle.gtfs_tables.specs.Tables.{calls_of};
ghost use Rattle.feed_timetable.specs.Running.{AreRunning, listed_first};

use crate::departures::departure_count;
use crate::instances::Counts;
use crate::running::is_due;
use feed_ids::Groups;
use gtfs_tables::{CallTimes, Frequency, Tables, fill_times};
use service_days::{Cover, Days};
use std::alloc::{AllocError, Global};
use timetable::MOST_INSTANCES;

// How many calls are left on that day of a trip that at this time of the day is so far in its own times. The day starts `before` seconds
// before moment 0.
fn count_left(times: &[CallTimes], time: u32, from: u32, before: u32) -> usize
    requires time { time ≤ 604_799 }
    requires early { All (λ t. t.departure ≤ 604_799) times.now }
    ensures left { (rows : List StopTimeData) → AreTimesOf rows times.now
        → result ≡ length (calls_left before (calls_from time from rows)) }
    ensures few { result ≤ length times.now }
{
    let mut count = 0;
    for own in times {
        if before <= time + own.departure.saturating_sub(from) {
            count += 1;
        }
    }
    count
}

// The counts with an instance of `calls` calls more, if these are two or more; none if there are too many instances then.
fn with_calls(counts: Counts, calls: usize) -> Option<Counts>
    requires counts { AreFewCounts counts }
    requires calls { calls ≤ 65_535 }
    ensures { Counted result (counts.instances + weight calls) (counts.calls + call_weight calls) }
{
    if calls < 2 {
        return Some(counts);
    }
    if counts.instances >= MOST_INSTANCES {
        return None;
    }
    Some(Counts {
        instances: counts.instances + 1,
        calls: counts.calls + calls,
    })
}

// The counts with a trip's instances by a row of frequencies.txt.
fn with_row(
    times: &[CallTimes],
    row: Frequency,
    first: u32,
    before: u32,
    counts: Counts,
) -> Option<Counts>
    requires row { 1 ≤ row.headway }
    requires end { row.end ≤ 604_799 }
    requires early { All (λ t. t.departure ≤ 604_799) times.now }
    requires few { length times.now ≤ 65_535 }
    requires counts { AreFewCounts counts }
    ensures counted { (rows : List StopTimeData) → AreTimesOf rows times.now → Counted result
        (counts.instances + sum_by (weight_at before first rows) (departures row))
        (counts.calls + sum_by (call_weight_at before first rows) (departures row)) }
    ensures few { IfSome result AreFewCounts }
{
    let mut more = counts;
    for x in 0..departure_count(row) {
        let left = count_left(times, row.start + x * row.headway, first, before);
        more = with_calls(more, left)?;
    }
    Some(more)
}

// The counts with a trip's instances by these rows.
fn with_rows(
    times: &[CallTimes],
    rows: &[Frequency],
    trips: usize,
    first: u32,
    before: u32,
    counts: Counts,
) -> Option<Counts>
    requires rows { All (IsFrequency trips) rows.now }
    requires early { All (λ t. t.departure ≤ 604_799) times.now }
    requires few { length times.now ≤ 65_535 }
    requires counts { AreFewCounts counts }
    ensures counted { (calls : List StopTimeData) → AreTimesOf calls times.now → Counted result
        (counts.instances + sum_by (weight_at before first calls) (flat_map departures rows.now))
        (counts.calls + sum_by (call_weight_at before first calls) (flat_map departures rows.now)) }
    ensures few { IfSome result AreFewCounts }
{
    let mut more = counts;
    for row in rows {
        more = with_row(times, *row, first, before, more)?;
    }
    Some(more)
}

// The counts with a trip's instances on that day. These rows repeat it, if there are any.
fn with_trip(
    tables: &Tables,
    cover: &Cover,
    rows: &[Frequency],
    trip: usize,
    times: &[CallTimes],
    counts: Counts,
) -> Option<Counts>
    requires trip { trip < length tables.now.trips }
    requires several { 2 ≤ length (calls_of tables.now trip) }
    requires rows { rows.now ≡ rows_of tables.now trip }
    requires known { All (IsFrequency (length tables.now.trips)) rows.now }
    requires times { AreTimesOf (calls_of tables.now trip) times.now }
    requires few { length times.now ≤ 65_535 }
    requires counts { AreFewCounts counts }
    ensures { Counted result (counts.instances + length (instances_before tables.now cover.now trip))
        (counts.calls + call_count (instances_before tables.now cover.now trip)) }
{
    let before = cover.before();
    if rows.is_empty() {
        return with_calls(counts, count_left(times, 0, 0, before));
    }
    with_rows(
        times,
        rows,
        tables.trips().len(),
        times[0].departure,
        before,
        counts,
    )
}

/// Counts the instances of the day before the first covered day, and their calls; none if there are too many instances.
pub fn count_before(
    alloc: Global,
    tables: &Tables,
    cover: &Cover,
    running: &[Days],
    repeats: &Groups<Frequency>,
) -> Result<Option<Counts>, AllocError>
    requires running { AreRunning tables.now cover.now running.now }
    requires repeats { AreRepeats tables.now repeats.now }
    ensures { IfOk result (λ counts. Counted counts (length (listed_first tables.now cover.now running.now (length tables.now.trips)))
        (call_count (listed_first tables.now cover.now running.now (length tables.now.trips)))) }
{
    let mut counts = Counts {
        instances: 0,
        calls: 0,
    };
    let mut times = Vec::new(alloc);
    for trip in 0..tables.trips().len() {
        if is_due(tables, running, 0, trip) {
            fill_times(tables.calls(trip), &mut times)?;
            let Some(more) = with_trip(tables, cover, repeats.of(trip), trip, &times, counts) else {
                return Ok(None);
            };
            counts = more;
        }
    }
    Ok(Some(counts))
}
