//! Trips that frequencies.txt repeats, and trips of the day before the first covered day.

use civil_dates::Date;
use feed_timetable::{assemble, repeats_of};
use gtfs_tables::Frequency;
use sample_feed::{Feed, Span, table_of, tables_of};
use service_days::Cover;
use std::test::Fail;
use timetable::{Timetable, Width};

const REPEATED: Feed<'static> = Feed {
    frequencies: Some(
        "trip_id,start_time,end_time,headway_secs,exact_times\nT2,08:00:00,09:00:00,1200,1\n",
    ),
    ..Feed::SAMPLE
};

const ROW: Frequency = Frequency {
    trip: 1,
    start: 28_800,
    end: 32_400,
    headway: 1_200,
    exact: true,
};

#[test]
fn rows_by_trip(rt: HostRuntime) -> Result<(), Fail> {
    let tables = tables_of(&rt, REPEATED)?;
    assert!(rt; tables.frequencies() == [ROW].as_slice());
    let repeats = repeats_of(rt.alloc(), &tables)?;
    assert!(rt; repeats.of(0).is_empty() && repeats.of(1) == [ROW].as_slice());
    Ok(())
}

// How many bytes the timetable has, by the bytes that the number of a stop takes. The trip T2 has three instances in place of one, each of
// 29 and of 33 bytes.
const LENGTHS: [(Width, usize); 2] = [(Width::Two, 198), (Width::Four, 226)];

#[test]
fn bytes_of_a_trip_that_repeats(rt: HostRuntime) -> Result<(), Fail> {
    let table = table_of(&rt, REPEATED, Span::TUESDAY)?;
    let mut bytes = Vec::new(rt.alloc());
    assert_eq!(rt; table.instances().len(), 5);
    for (width, len) in LENGTHS {
        bytes.clear();
        table.write_canonical(width, &mut bytes)?;
        assert_eq!(rt; bytes.len(), len);
    }
    Ok(())
}

const CENTRAL: &str = "CET-1CEST,M3.5.0,M10.5.0/3";

// A first day, a rule, the seconds from the start of the day before to its start, and whether WK runs on the day before: on weekdays of
// 2024.
const DAYS_BEFORE: [((i16, i8, i8), &str, u32, bool); 5] = [
    ((2024, 3, 31), CENTRAL, 82_800, false),
    ((2024, 10, 27), CENTRAL, 90_000, false),
    ((2024, 1, 3), CENTRAL, 86_400, true),
    ((2024, 1, 1), "UTC0", 86_400, false),
    ((1900, 1, 1), "UTC0", 86_400, false),
];

#[test]
fn days_before(rt: HostRuntime) -> Result<(), Fail> {
    let tables = tables_of(&rt, Feed::SAMPLE)?;
    for ((year, month, day), rule, before, runs) in DAYS_BEFORE {
        let cover = Cover::new(Date::new(year, month, day)?, 1, rule)?;
        assert!(rt;
            cover.before() == before && cover.runs_before(&tables, "WK") == runs,
            "{year}"
        );
    }
    Ok(())
}

const NIGHT: Feed<'static> = Feed {
    trips: "trip_id,service_id\nT1,WK\nN,WK\n",
    stop_times: "trip_id,stop_id,stop_sequence,arrival_time,departure_time\nT1,A,1,08:00:00,08:00:00\n\
        T1,B,2,08:10:00,08:10:00\nN,A,1,23:50:00,24:00:00\nN,B,2,24:20:00,24:20:00\n",
    ..Feed::SAMPLE
};

// The timetable of a feed on 3 January 2024.
fn wednesday(rt: &HostRuntime, feed: Feed<'_>) -> Result<Timetable, Fail> {
    let tables = tables_of(rt, feed)?;
    let cover = Cover::new(Date::new(2024, 1, 3)?, 1, "UTC0")?;
    Ok(assemble(rt.alloc(), &tables, &cover, 120)?)
}

// The trip N of the day before comes first, of day 255. It arrives and departs at A at moment 0.
#[test]
fn a_trip_of_the_day_before(rt: HostRuntime) -> Result<(), Fail> {
    let table = wednesday(&rt, NIGHT)?;
    let Some(first) = table.instances().first() else {
        return Err(Fail::new("no instance"));
    };
    assert!(rt; table.instances().len() == 3 && first.trip() == 1 && first.day() == 255);
    for call in first.calls() {
        let (arrival, departure) = if call.stop.number() == 0 {
            (0, 0)
        } else {
            (1_200, 1_200)
        };
        assert!(rt; call.arrival == arrival && call.departure == departure);
    }
    Ok(())
}
