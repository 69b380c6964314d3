//! How the trip of a ride repeats.

use feed_basis::Basis;
use gtfs_tables::Frequency as Row;
use itinerary_texts::Frequency;
use timetable::{Instance, Leg};

// Two to this power is more seconds than a time of a feed has.
const TIME_BITS: u32 = 20;

// How many departures of a row are before a time.
fn departures_before(row: &Row, time: u32) -> u32 {
    let seconds = time.min(row.end).saturating_sub(row.start);
    seconds.div_ceil(row.headway.max(1))
}

// How many departures rows have from a time on.
fn departures_from(rows: &[Row], time: u32) -> usize {
    let mut count = 0_usize;
    for row in rows {
        let all = departures_before(row, row.end);
        let before = departures_before(row, time);
        count = count.saturating_add(all.saturating_sub(before) as usize);
    }
    count
}

// The departure of rows that `following` departures follow. It is the latest time from which on there are more.
fn departure_at(rows: &[Row], following: usize) -> u32 {
    let mut time = 0_u32;
    for bit in (0..TIME_BITS).rev() {
        let later = time | 1 << bit;
        if departures_from(rows, later) > following {
            time = later;
        }
    }
    time
}

// Whether a row has its trip depart at a time.
fn departs_at(row: &Row, time: u32) -> bool {
    departures_before(row, time) < departures_before(row, time.saturating_add(1))
}

// Whether two instances are of one trip on one day.
fn is_same_trip(one: &Instance, other: &Instance) -> bool {
    one.trip() == other.trip() && one.day() == other.day()
}

/// How the trip of a ride repeats, by the first row that has it depart as the ride does; none if it runs at its own times. The instances of
/// a trip on a day stand in the order of their departures. Of the day before the first covered day only the first ones may be left out.
pub(crate) fn frequency_of(basis: &Basis, leg: Leg) -> Option<Frequency> {
    let (_, from) = basis
        .timetable()
        .instances()
        .split_at_checked(leg.instance as usize)?;
    let (instance, later) = from.split_first()?;
    let following = later
        .iter()
        .take_while(|other| is_same_trip(instance, *other))
        .count();
    let rows = basis.repeats(instance.trip());
    let time = departure_at(rows, following);
    let row = rows.iter().find(|row| departs_at(*row, time))?;
    Some(Frequency {
        headway_secs: row.headway,
        exact_times: row.exact,
    })
}
