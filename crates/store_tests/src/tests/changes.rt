//! Each front of the file of the sample feed's five trees, and each change of one of its 368 bytes; and the same of the file of the first
//! version, of 286 bytes.

use super::first;
use super::opening::Answer::{self, Begun, List, Refused};
use super::opening::Opening;
use sample_feed::demo;
use sample_store::{TEXTS, file_of};
use std::alloc::Global;
use std::process::Abort;
use std::test::Fail;
use store_faults::RecoverFault::{Damaged, NotAStore, OldVersion, OtherRides, OtherTimetable};
use timetable::Rides;

// What the fronts of these lengths are opened as,
const FRONTS: [(usize, usize, Answer); 9] = [
    (0, 15, Begun),
    (15, 174, Refused(OtherTimetable)),
    (174, 271, Refused(Damaged(0))),
    (271, 328, Refused(Damaged(1))),
    (328, 341, Refused(Damaged(2))),
    (341, 354, Refused(Damaged(3))),
    (354, 367, Refused(Damaged(4))),
    (367, 368, Refused(Damaged(5))),
    (368, 369, List(5)),
];

// and what those of a file of the first version are read as.
const OLD_FRONTS: [(usize, usize, Answer); 9] = [
    (0, 15, List(0)),
    (15, 154, Refused(OtherTimetable)),
    (154, 215, Refused(Damaged(0))),
    (215, 252, Refused(Damaged(1))),
    (252, 263, Refused(Damaged(2))),
    (263, 274, Refused(Damaged(3))),
    (274, 285, Refused(Damaged(4))),
    (285, 286, Refused(Damaged(5))),
    (286, 287, List(5)),
];

// Goes over the fronts.
fn check_fronts(
    rt: &impl Abort,
    alloc: Global,
    opening: &Opening,
    texts: &[&[u8]],
    table: &[(usize, usize, Answer)],
) -> Result<(), Fail> {
    let file = file_of(alloc, &opening.header, texts)?;
    for (from, to, wanted) in table {
        for len in *from..*to {
            let front = file.get(..len).ok_or("no such front")?;
            assert_eq!(rt; opening.answer(alloc, front)?, *wanted, "{len} bytes");
        }
    }
    Ok(())
}

#[test]
fn fronts(rt: HostRuntime) -> Result<(), Fail> {
    let opening = Opening::new(rt.alloc(), demo(&rt)?, Rides::new(3))?;
    check_fronts(&rt, rt.alloc(), &opening, &TEXTS, &FRONTS)
}

#[test]
fn old_fronts(rt: HostRuntime) -> Result<(), Fail> {
    let opening = Opening::old(rt.alloc(), demo(&rt)?, Rides::new(3))?;
    check_fronts(&rt, rt.alloc(), &opening, &first::TEXTS, &OLD_FRONTS)
}

// How often each answer comes over all changes of one byte at these places, as a reader of the format by another hand counts
// them: of the header,
const HEADER: [(usize, usize, &[(Answer, usize)]); 4] = [
    (0, 1, &[(Begun, 255)]),
    (
        1,
        9,
        &[(Refused(NotAStore), 2039), (Refused(OldVersion), 1)],
    ),
    (9, 10, &[(Refused(OtherRides), 255)]),
    (10, 174, &[(Refused(OtherTimetable), 41_820)]),
];

// of that of the first version,
const OLD_HEADER: [(usize, usize, &[(Answer, usize)]); 4] = [
    (0, 1, &[(List(0), 255)]),
    (1, 9, &[(Refused(NotAStore), 2040)]),
    (9, 10, &[(Refused(OtherRides), 255)]),
    (10, 154, &[(Refused(OtherTimetable), 36_720)]),
];

// and of each section: its gate, its length and its text, and of the gate at the end. A text that is changed may be that of
// another tree, or of a tree of a source that comes again.
const SECTIONS: [(usize, usize, &[(Answer, usize)]); 16] = [
    (174, 175, &[(List(0), 255)]),
    (175, 179, &[(Refused(Damaged(0)), 1020)]),
    (
        179,
        271,
        &[
            (List(5), 30),
            (Refused(Damaged(0)), 23_426),
            (Refused(Damaged(1)), 1),
            (Refused(Damaged(2)), 1),
            (Refused(Damaged(3)), 1),
            (Refused(Damaged(4)), 1),
        ],
    ),
    (271, 272, &[(List(1), 255)]),
    (272, 276, &[(Refused(Damaged(1)), 1020)]),
    (
        276,
        328,
        &[
            (List(5), 15),
            (Refused(Damaged(1)), 13_242),
            (Refused(Damaged(2)), 1),
            (Refused(Damaged(3)), 1),
            (Refused(Damaged(4)), 1),
        ],
    ),
    (328, 329, &[(List(2), 255)]),
    (329, 333, &[(Refused(Damaged(2)), 1020)]),
    (
        333,
        341,
        &[
            (Refused(Damaged(2)), 2038),
            (Refused(Damaged(3)), 1),
            (Refused(Damaged(4)), 1),
        ],
    ),
    (341, 342, &[(List(3), 255)]),
    (342, 346, &[(Refused(Damaged(3)), 1020)]),
    (
        346,
        354,
        &[(Refused(Damaged(3)), 2039), (Refused(Damaged(4)), 1)],
    ),
    (354, 355, &[(List(4), 255)]),
    (355, 359, &[(Refused(Damaged(4)), 1020)]),
    (359, 367, &[(Refused(Damaged(4)), 2040)]),
    (367, 368, &[(List(5), 254), (Refused(Damaged(5)), 1)]),
];

// Those of the first version.
const OLD_SECTIONS: [(usize, usize, &[(Answer, usize)]); 16] = [
    (154, 155, &[(List(0), 255)]),
    (155, 159, &[(Refused(Damaged(0)), 1020)]),
    (
        159,
        215,
        &[
            (List(5), 30),
            (Refused(Damaged(0)), 14_246),
            (Refused(Damaged(1)), 1),
            (Refused(Damaged(2)), 1),
            (Refused(Damaged(3)), 1),
            (Refused(Damaged(4)), 1),
        ],
    ),
    (215, 216, &[(List(1), 255)]),
    (216, 220, &[(Refused(Damaged(1)), 1020)]),
    (
        220,
        252,
        &[
            (List(5), 15),
            (Refused(Damaged(1)), 8142),
            (Refused(Damaged(2)), 1),
            (Refused(Damaged(3)), 1),
            (Refused(Damaged(4)), 1),
        ],
    ),
    (252, 253, &[(List(2), 255)]),
    (253, 257, &[(Refused(Damaged(2)), 1020)]),
    (
        257,
        263,
        &[
            (Refused(Damaged(2)), 1528),
            (Refused(Damaged(3)), 1),
            (Refused(Damaged(4)), 1),
        ],
    ),
    (263, 264, &[(List(3), 255)]),
    (264, 268, &[(Refused(Damaged(3)), 1020)]),
    (
        268,
        274,
        &[(Refused(Damaged(3)), 1529), (Refused(Damaged(4)), 1)],
    ),
    (274, 275, &[(List(4), 255)]),
    (275, 279, &[(Refused(Damaged(4)), 1020)]),
    (279, 285, &[(Refused(Damaged(4)), 1530)]),
    (285, 286, &[(List(5), 254), (Refused(Damaged(5)), 1)]),
];

// Counts an answer, if it is one of those that are known.
fn count(known: &[(Answer, usize)], counts: &mut [usize], answer: Answer) -> Result<(), Fail> {
    let at = known.iter().position(|row| row.0 == answer);
    let count = at
        .and_then(|at| counts.get_mut(at))
        .ok_or("another answer")?;
    *count = count.saturating_add(1);
    Ok(())
}

// How often each of the known answers comes over all changes of the byte at a place.
fn count_at(
    alloc: Global,
    opening: &Opening,
    file: &mut [u8],
    place: usize,
    known: &[(Answer, usize)],
    counts: &mut [usize],
) -> Result<(), Fail> {
    let was = file.get(place).copied().ok_or("no such place")?;
    for value in 0..=255 {
        if value != was {
            *file.get_mut(place).ok_or("no such place")? = value;
            count(known, counts, opening.answer(alloc, file)?)?;
        }
    }
    *file.get_mut(place).ok_or("no such place")? = was;
    Ok(())
}

// Goes over the rows of a table, for the file of these texts, which has `len` bytes.
fn check_changes(
    rt: &impl Abort,
    alloc: Global,
    opening: &Opening,
    texts: &[&[u8]],
    len: usize,
    table: &[(usize, usize, &[(Answer, usize)])],
) -> Result<(), Fail> {
    let mut file = file_of(alloc, &opening.header, texts)?;
    assert_eq!(rt; file.len(), len);
    for (from, to, known) in table {
        let mut counts = vec![in alloc; 0; known.len()]?;
        for place in *from..*to {
            count_at(alloc, opening, &mut file, place, known, &mut counts)?;
        }
        let same = counts.iter().eq(known.iter().map(|row| &row.1));
        assert!(rt; same, "from {from} to {to}: {counts:?}");
    }
    Ok(())
}

#[test]
fn changes_of_the_header(rt: HostRuntime) -> Result<(), Fail> {
    let opening = Opening::new(rt.alloc(), demo(&rt)?, Rides::new(3))?;
    check_changes(&rt, rt.alloc(), &opening, &TEXTS, 368, &HEADER)
}

#[test]
fn changes_of_sections(rt: HostRuntime) -> Result<(), Fail> {
    let opening = Opening::new(rt.alloc(), demo(&rt)?, Rides::new(3))?;
    check_changes(&rt, rt.alloc(), &opening, &TEXTS, 368, &SECTIONS)
}

#[test]
fn changes_of_the_old_header(rt: HostRuntime) -> Result<(), Fail> {
    let opening = Opening::old(rt.alloc(), demo(&rt)?, Rides::new(3))?;
    check_changes(&rt, rt.alloc(), &opening, &first::TEXTS, 286, &OLD_HEADER)
}

#[test]
fn changes_of_old_sections(rt: HostRuntime) -> Result<(), Fail> {
    let opening = Opening::old(rt.alloc(), demo(&rt)?, Rides::new(3))?;
    check_changes(&rt, rt.alloc(), &opening, &first::TEXTS, 286, &OLD_SECTIONS)
}
