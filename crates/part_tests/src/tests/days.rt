//! Covered days, and timetables of them.

use civil_dates::Date;
use sample_feed::{Feed, Span, demo, table_of};
use service_days::Cover;
use std::alloc::{AllocError, Global};
use std::test::Fail;
use timetable::{Timetable, Width};

const CENTRAL: &str = "CET-1CEST,M3.5.0,M10.5.0/3";

// A year, a month and a day.
type Day = (i16, i8, i8);

fn date_of(day: Day) -> Result<Date, Fail> {
    let (year, month, day) = day;
    Ok(Date::new(year, month, day)?)
}

// Whether a cover has two days, of which the second is that and starts at that moment.
fn has_second_day(cover: &Cover, second: Date, start: u32) -> bool {
    cover.days() == 2
        && cover.date(1) == second
        && cover.day_start(1) == start
        && cover.moment(second, 0) == Some(start)
        && cover.split(start) == (second, 0)
}

// The first of two days, a rule, the second day and its start: a first day of 23 hours, one of 25, and one of 24.
const SECOND_DAYS: [(Day, &str, Day, u32); 3] = [
    ((2024, 3, 30), CENTRAL, (2024, 3, 31), 82_800),
    ((2024, 10, 26), CENTRAL, (2024, 10, 27), 90_000),
    ((2024, 2, 28), "UTC0", (2024, 2, 29), 86_400),
];

#[test]
fn starts_of_days(rt: HostRuntime) -> Result<(), Fail> {
    for (first, rule, second, start) in SECOND_DAYS {
        let cover = Cover::new(date_of(first)?, 2, rule)?;
        assert!(rt; has_second_day(&cover, date_of(second)?, start), "{rule}");
    }
    Ok(())
}

// The sample feed's timetable on a Tuesday: the horizon and the number of stops; the seconds of each change; a walk; and three trips. Each
// trip has its number, day and number of calls, and for each call the stop, the arrival, the departure, and 3, as one may board and alight.
// The number of a stop takes two bytes here,
const OLD_DEMO: [u8; 140] = *b"\x00\x09\x3A\x7F\x00\x05\
    \x00\x00\x00\x00\x00\x00\x00\x78\x00\x00\x00\x00\x00\x00\x00\x00\x00\x00\x00\x00\
    \x00\x00\x00\x01\x00\x02\x00\x04\x00\x00\x00\xF0\
    \x00\x00\x00\x03\
    \x00\x00\x00\x00\x00\x00\x03\x00\x00\x00\x00\x70\x80\x00\x00\x70\x80\x03\x00\x01\x00\x00\x72\xD8\x00\x00\x73\x50\x03\
    \x00\x02\x00\x00\x77\x88\x00\x00\x77\x88\x03\
    \x00\x00\x00\x01\x00\x00\x02\x00\x01\x00\x00\x74\x04\x00\x00\x74\x04\x03\x00\x03\x00\x00\x79\xE0\x00\x00\x79\xE0\x03\
    \x00\x00\x00\x02\x00\x00\x02\x00\x00\x00\x00\x71\xAC\x00\x00\x71\xAC\x03\x00\x03\x00\x00\x7E\x90\x00\x00\x7E\x90\x03";

// and four here.
const DEMO: [u8; 160] = *b"\x00\x09\x3A\x7F\x00\x00\x00\x05\
    \x00\x00\x00\x00\x00\x00\x00\x78\x00\x00\x00\x00\x00\x00\x00\x00\x00\x00\x00\x00\
    \x00\x00\x00\x01\x00\x00\x00\x02\x00\x00\x00\x04\x00\x00\x00\xF0\
    \x00\x00\x00\x03\
    \x00\x00\x00\x00\x00\x00\x03\x00\x00\x00\x00\x00\x00\x70\x80\x00\x00\x70\x80\x03\
    \x00\x00\x00\x01\x00\x00\x72\xD8\x00\x00\x73\x50\x03\x00\x00\x00\x02\x00\x00\x77\x88\x00\x00\x77\x88\x03\
    \x00\x00\x00\x01\x00\x00\x02\x00\x00\x00\x01\x00\x00\x74\x04\x00\x00\x74\x04\x03\
    \x00\x00\x00\x03\x00\x00\x79\xE0\x00\x00\x79\xE0\x03\
    \x00\x00\x00\x02\x00\x00\x02\x00\x00\x00\x00\x00\x00\x71\xAC\x00\x00\x71\xAC\x03\
    \x00\x00\x00\x03\x00\x00\x7E\x90\x00\x00\x7E\x90\x03";

// Whether the timetable has these bytes.
fn has_bytes(
    alloc: Global,
    table: &Timetable,
    width: Width,
    wanted: &[u8],
) -> Result<bool, AllocError> {
    let mut bytes = Vec::new(alloc);
    table.write_canonical(width, &mut bytes)?;
    Ok(bytes.as_slice() == wanted)
}

// Whether a copy of the timetable is the same and has its bytes, and another isn't.
fn is_copied(alloc: Global, table: &Timetable, other: &Timetable) -> Result<bool, AllocError> {
    let copy = table.try_copy(alloc)?;
    Ok(
        copy.is_same(table)
            && !copy.is_same(other)
            && has_bytes(alloc, &copy, Width::Two, &OLD_DEMO)?
            && has_bytes(alloc, &copy, Width::Four, &DEMO)?,
    )
}

// A timetable of one day more is another.
#[test]
fn timetables_that_are_the_same(rt: HostRuntime) -> Result<(), Fail> {
    let table = demo(&rt)?;
    let longer = table_of(&rt, Feed::SAMPLE, Span::TWO_DAYS)?;
    assert!(rt; is_copied(rt.alloc(), &table, &longer)?);
    Ok(())
}
