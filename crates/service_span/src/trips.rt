//! How many trips run on a day.

ghost use Rattle.std.specs.Prelude.{◌≡◌, ◌≤◌, ◌<◌, [], false, length, slice_index_or, count_by, IfOk};
ghost use Rattle.std.specs.List.{All};
ghost use Rattle.jiff_core.specs.declared.civil.date.Date.{Date as PlainDate};
ghost use Rattle.service_days.specs.Noon.{IsDaysAfter};
ghost use Rattle.service_span.specs.TripCounts.{AreDayTrips};

use crate::looked::day_number;
use civil_dates::Date;
use gtfs_tables::{Tables, Trip};
use service_days::{Dates, Days, running_days};
use std::alloc::{AllocError, Global};

// The number of the last date of the calendar, 9999-12-31.
const LAST_DAY: u32 = 7_304_483;

/// A date, and how many trips have a service that runs on it.
#[derive(Clone, Copy)]
pub struct DayTrips {
    pub date: Date,
    pub trips: usize,
}

/// How many of these trips have a service that runs on one of the dates, by its number.
pub(crate) fn running_trips(trips: &[Trip], running: &[Days], day: u8) -> usize
    requires day { day < 15 }
    requires services { All (λ trip. trip.service < length running.now) trips.now }
    ensures { result ≡ count_by (λ trip. slice_index_or (slice_index_or running.now trip.service []) day false) trips.now }
{
    let mut count = 0;
    for trip in trips {
        if running[trip.service as usize][usize::from(day)] {
            count += 1;
        }
    }
    count
}

// `days` dates from the first on, or as many as the calendar has.
fn dates_from(first: Date, days: u8) -> Dates
    requires { days ≤ 15 }
    ensures first { result.first ≡ first }
    ensures few { result.count ≤ days }
    ensures all { result.count < days → (date : PlainDate) → ¬ (IsDaysAfter result.count first date) }
{
    let behind = LAST_DAY - day_number(first);
    let count = if u32::from(days) <= behind {
        days
    } else {
        (behind + 1) as u8
    };
    Dates::new(first, count)
}

/// How many trips run on each of `days` days in a row, at most 15, from the first on; fewer only if the calendar ends.
pub fn trips_by_day(
    alloc: Global,
    tables: &Tables,
    first: Date,
    days: u8,
) -> Result<Vec<DayTrips>, AllocError>
    requires { days ≤ 15 }
    ensures { IfOk result (λ list. AreDayTrips tables.now first days list.items) }
{
    let dates = dates_from(first, days);
    let running = running_days(alloc, &dates, tables)?;
    let mut list = Vec::new(alloc);
    for day in 0..dates.count() {
        list.push(DayTrips {
            date: dates.date(day),
            trips: running_trips(tables.trips(), &running, day),
        })?;
    }
    Ok(list)
}
