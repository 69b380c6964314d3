//! When trips depart that frequencies.txt repeats.

ghost use Rattle.std.specs.Prelude.{◌≡◌, ℕ, ◌≤◌, IfOk, OnOk, length};
ghost use Rattle.std.specs.List.{All, flat_map};
ghost use Rattle.gtfs_frequencies.specs.Frequencies.{IsFrequency};
ghost use Rattle.feed_timetable.specs.Departures.{AreRepeats, departures, departures_by};
ghost use Rattle.feed_timetable.specs.Running.{times_by};

use feed_ids::Groups;
use gtfs_tables::{Frequency, Tables};
use std::alloc::{AllocError, Global};

/// The rows of frequencies.txt by the trips that they repeat, each trip's in file order.
pub fn repeats_of(alloc: Global, tables: &Tables) -> Result<Groups<Frequency>, AllocError>
    ensures { IfOk result (λ repeats. AreRepeats tables.now repeats) }
{
    let mut repeats = Groups::new(alloc, tables.trips().len())?;
    for row in tables.frequencies() {
        repeats.put(row.trip as usize, *row)?;
    }
    Ok(repeats)
}

/// How many departures a row has.
pub fn departure_count(row: Frequency) -> u32
    requires { 1 ≤ row.headway }
    ensures { result ≡ length (departures row) }
{
    if row.start >= row.end {
        return 0;
    }
    (row.end - row.start - 1) / row.headway + 1
}

/// How many instances a trip has on a day that these rows repeat, if any do.
pub fn times_by(rows: &[Frequency], trips: usize) -> usize
    requires rows { All (IsFrequency trips) rows.now }
    requires few { length rows.now ≤ 999_999_999 }
    ensures count { result ≡ times_by rows.now }
    ensures few { result ≤ 604_799_000_000_000 }
{
    if rows.is_empty() {
        return 1;
    }
    let mut count = 0;
    for row in rows {
        count += departure_count(*row) as usize;
    }
    count
}

/// The departures of these rows, by time and then by row, in place of what `times` held. On an error `times` may hold anything.
pub fn list_departures(
    rows: &[Frequency],
    trips: usize,
    times: &mut Vec<u32>,
) -> Result<(), AllocError>
    requires rows { All (IsFrequency trips) rows.now }
    ensures listed { OnOk result (times.new.items ≡ departures_by rows.now) }
    ensures early { OnOk result (All (λ time. time ≤ 604_799) times.new.items) }
{
    times.clear();
    for row in rows {
        for x in 0..departure_count(*row) {
            times.push(row.start + x * row.headway)?;
        }
    }
    times.sort_unstable();
    Ok(())
}
