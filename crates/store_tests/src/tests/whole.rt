//! Whole files, opened for what they are a store of and for something else.

use super::opening::Answer::{self, Begun, List, Refused};
use super::opening::Opening;
use sample_feed::{Feed, Span, demo, table_of};
use sample_store::{A, B, D, E, TEXTS, file_of};
use std::alloc::Global;
use std::process::Abort;
use std::test::Fail;
use store_faults::RecoverFault;
use store_faults::RecoverFault::{Damaged, OtherRides, OtherTimetable};
use timetable::{Rides, Timetable};

// Trip T2 a second later at both stops.
const LATER: &str =
    "trip_id,stop_id,stop_sequence,arrival_time,departure_time\nT1,A,1,08:00:00,08:00:00\nT1,B,2,08:10:00,08:12:00\n\
    T1,C,3,08:30:00,08:30:00\nT2,B,1,08:15:01,08:15:01\nT2,D,2,08:40:01,08:40:01\nT3,A,1,08:05:00,08:05:00\n\
    T3,D,2,09:00:00,09:00:00\n";

/// The timetable of the sample feed with that trip.
pub fn later(rt: &HostRuntime) -> Result<Timetable, Fail> {
    let feed = Feed {
        stop_times: LATER,
        ..Feed::SAMPLE
    };
    Ok(table_of(rt, feed, Span::TUESDAY)?)
}

// What a store of the sample feed for three rides is opened as for this timetable and `rides` rides.
fn opened_for(rt: &HostRuntime, table: Timetable, rides: Rides) -> Result<Answer, Fail> {
    let alloc = rt.alloc();
    let own = Opening::new(alloc, demo(rt)?, Rides::new(3))?;
    let file = file_of(alloc, &own.header, &TEXTS)?;
    Opening::new(alloc, table, rides)?.answer(alloc, &file)
}

#[test]
fn opened_for_something_else(rt: HostRuntime) -> Result<(), Fail> {
    assert_eq!(rt;
        opened_for(&rt, later(&rt)?, Rides::new(3))?,
        Refused(OtherTimetable)
    );
    assert_eq!(rt;
        opened_for(&rt, demo(&rt)?, Rides::new(2))?,
        Refused(OtherRides)
    );
    assert_eq!(rt;
        opened_for(&rt, demo(&rt)?, Rides::new(4))?,
        Refused(OtherRides)
    );
    Ok(())
}

// Of source 2: four rides in a row, (0, 1), (1, 2), (2, 3) and (3, 4), with the end 4.
const FOUR_RIDES: &[u8] =
    b"\x00\x00\x00\x02\x00\x00\x00\x01\x00\x00\x00\x00\x00\x00\x00\x01\x00\x00\x00\x00\x00\x00\x00\x01\
    \x00\x00\x00\x01\x00\x00\x00\x02\x00\x00\x00\x00\x00\x00\x00\x01\
    \x00\x00\x00\x02\x00\x00\x00\x03\x00\x00\x00\x00\x00\x00\x00\x01\
    \x00\x00\x00\x03\x00\x00\x00\x04\x00\x00\x00\x01\x00\x00\x00\x04\x00\x00\x00\x00";

// The text of C's tree with a byte after it.
const LONGER: &[u8] = b"\x00\x00\x00\x02\x00\x00\x00\x00\x00";

// What these texts, each in an open section, are opened as, for three rides
const LISTS: [(&[&[u8]], Answer); 8] = [
    (&[], List(0)),
    (&[A], List(1)),
    (&[E, B, D], List(3)),
    (&[A, A], Refused(Damaged(1))),
    (&[B, D, B, A], Refused(Damaged(2))),
    (&[A, FOUR_RIDES], Refused(Damaged(1))),
    (&[A, LONGER, D], Refused(Damaged(1))),
    (&[&[]], Refused(Damaged(0))),
];

// and for four.
const DEEPER_LISTS: [(&[&[u8]], Answer); 1] = [(&[A, FOUR_RIDES], List(2))];

/// Goes over lists.
pub fn check_lists(
    rt: &impl Abort,
    alloc: Global,
    own: &Opening,
    lists: &[(&[&[u8]], Answer)],
) -> Result<(), Fail> {
    for (texts, wanted) in lists {
        let file = file_of(alloc, &own.header, texts)?;
        assert_eq!(rt; own.answer(alloc, &file)?, *wanted);
    }
    Ok(())
}

#[test]
fn lists(rt: HostRuntime) -> Result<(), Fail> {
    let own = Opening::new(rt.alloc(), demo(&rt)?, Rides::new(3))?;
    check_lists(&rt, rt.alloc(), &own, &LISTS)
}

#[test]
fn deeper_lists(rt: HostRuntime) -> Result<(), Fail> {
    let own = Opening::new(rt.alloc(), demo(&rt)?, Rides::new(4))?;
    check_lists(&rt, rt.alloc(), &own, &DEEPER_LISTS)
}

// What a file of A's tree is opened as with these bytes in place of those from a place on.
const PATCHES: [(usize, &[u8], Answer); 5] = [
    (175, b"\xFF\xFF\xFF\xFF", Refused(Damaged(0))),
    (175, b"\x04\xC4\xB4\x09", Refused(Damaged(0))),
    (10, b"\xFF\xFF\xFF\xFF", Refused(OtherTimetable)),
    (0, b"\x00", Begun),
    (271, b"\xFF", List(1)),
];

// Goes over the patches.
fn check_patches(rt: &impl Abort, alloc: Global, own: &Opening) -> Result<(), Fail> {
    for (place, bytes, wanted) in PATCHES {
        let mut file = file_of(alloc, &own.header, &[A])?;
        assert_eq!(rt; file.len(), 272);
        for (to, from) in file.iter_mut().skip(place).zip(bytes) {
            *to = *from;
        }
        assert_eq!(rt; own.answer(alloc, &file)?, wanted);
    }
    Ok(())
}

#[test]
fn patches(rt: HostRuntime) -> Result<(), Fail> {
    let own = Opening::new(rt.alloc(), demo(&rt)?, Rides::new(3))?;
    check_patches(&rt, rt.alloc(), &own)
}

#[test]
fn texts_of_faults(rt: HostRuntime) -> Result<(), Fail> {
    let cases = [
        (RecoverFault::NotAStore, "Z1 NotAStore"),
        (RecoverFault::OldVersion, "Z7 OldVersion"),
        (RecoverFault::OtherTimetable, "Z2 OtherTimetable"),
        (RecoverFault::OtherRides, "Z3 OtherRides"),
        (RecoverFault::Damaged(2), "Z4 Damaged 2"),
        (RecoverFault::Device, "Z5 Device"),
        (RecoverFault::Memory, "Z6 Memory"),
    ];
    for (fault, wanted) in cases {
        assert_eq!(rt; fault.to_string(rt.alloc())?.as_str(), wanted);
    }
    Ok(())
}
