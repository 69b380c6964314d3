//! Whole files of the first version, read for what they are a store of and for something else, and files of the other version.

use super::first::{A, B, D, E, HEADER, TEXTS};
use super::opening::Answer::{self, List, Refused};
use super::opening::Opening;
use super::whole::{check_lists, later};
use sample_feed::demo;
use sample_store::file_of;
use std::alloc::Global;
use std::process::Abort;
use std::test::Fail;
use store_faults::RecoverFault::{Damaged, NotAStore, OldVersion, OtherRides, OtherTimetable};
use timetable::{Rides, Timetable};

// What a store of the sample feed for three rides is read as for this timetable and `rides` rides.
fn read_for(rt: &HostRuntime, table: Timetable, rides: Rides) -> Result<Answer, Fail> {
    let file = file_of(rt.alloc(), HEADER, &TEXTS)?;
    Opening::old(rt.alloc(), table, rides)?.answer(rt.alloc(), &file)
}

#[test]
fn read_for_something_else(rt: HostRuntime) -> Result<(), Fail> {
    assert_eq!(rt;
        read_for(&rt, later(&rt)?, Rides::new(3))?,
        Refused(OtherTimetable)
    );
    assert_eq!(rt;
        read_for(&rt, later(&rt)?, Rides::new(2))?,
        Refused(OtherRides)
    );
    assert_eq!(rt;
        read_for(&rt, demo(&rt)?, Rides::new(4))?,
        Refused(OtherRides)
    );
    Ok(())
}

// Of source 2: four rides in a row, (0, 1), (1, 2), (2, 3) and (3, 4), with the end 4.
const FOUR_RIDES: &[u8] =
    b"\x00\x02\x00\x00\x00\x01\x00\x00\x00\x01\x00\x00\x00\x00\x00\x01\x00\x01\x00\x02\x00\x00\x00\x00\x00\x01\x00\x02\x00\x03\
    \x00\x00\x00\x00\x00\x01\x00\x03\x00\x04\x00\x01\x00\x04\x00\x00\x00\x00";

// The text of C's tree with a byte after it, and with four bytes for the stop.
const LONGER: &[u8] = b"\x00\x02\x00\x00\x00\x00\x00";

const WIDER: &[u8] = b"\x00\x00\x00\x02\x00\x00\x00\x00";

// What these texts, each in an open section, are read as, for three rides.
const LISTS: [(&[&[u8]], Answer); 10] = [
    (&[], List(0)),
    (&[A], List(1)),
    (&[E, B, D], List(3)),
    (&TEXTS, List(5)),
    (&[A, A], Refused(Damaged(1))),
    (&[B, D, B, A], Refused(Damaged(2))),
    (&[A, FOUR_RIDES], Refused(Damaged(1))),
    (&[A, LONGER, D], Refused(Damaged(1))),
    (&[A, B, WIDER], Refused(Damaged(2))),
    (&[&[]], Refused(Damaged(0))),
];

#[test]
fn lists(rt: HostRuntime) -> Result<(), Fail> {
    let own = Opening::old(rt.alloc(), demo(&rt)?, Rides::new(3))?;
    check_lists(&rt, rt.alloc(), &own, &LISTS)
}

// A file of the five trees of either version, opened and read as one of the other, and empty files.
fn check_others(rt: &impl Abort, alloc: Global, new: &Opening, old: &Opening) -> Result<(), Fail> {
    let file = file_of(alloc, &new.header, &sample_store::TEXTS)?;
    assert_eq!(rt; old.answer(alloc, &file)?, Refused(NotAStore));
    let file = file_of(alloc, &old.header, &TEXTS)?;
    assert_eq!(rt; new.answer(alloc, &file)?, Refused(OldVersion));
    assert_eq!(rt; old.answer(alloc, &[])?, List(0));
    Ok(())
}

#[test]
fn files_of_the_other_version(rt: HostRuntime) -> Result<(), Fail> {
    let new = Opening::new(rt.alloc(), demo(&rt)?, Rides::new(3))?;
    let old = Opening::old(rt.alloc(), demo(&rt)?, Rides::new(3))?;
    check_others(&rt, rt.alloc(), &new, &old)
}
