//! Files of the first version that are migrated.

use super::first;
use super::first::HEADER;
use disk_model::{Disk, MemDisk};
use migration::MigrateFault::{self, New, Old, OtherList};
use migration::migrate;
use progress::{Done, Progress};
use sample_store::{A, B, C, D, E, Sample, TEXTS, bytes_of, file_of};
use std::alloc::Global;
use std::process::Abort;
use std::test::Fail;
use store_faults::RecoverFault::{Damaged, NotAStore, OldVersion};
use timetable::Rides;

/// A disk with these bytes, which are synced.
pub fn disk_of(alloc: Global, bytes: &[u8]) -> Result<MemDisk, Fail> {
    let mut disk = MemDisk::new(alloc);
    disk.write_at(0, bytes)?;
    disk.sync()?;
    Ok(disk)
}

/// What a migration reported: with how many trees it began, how many of how many there were at last, and how many reports came.
#[derive(Clone, Copy, Debug, PartialEq, Eq)]
pub struct Heard {
    first: Option<usize>,
    last: usize,
    of: usize,
    reports: usize,
}

const NOTHING: Heard = Heard {
    first: None,
    last: 0,
    of: 0,
    reports: 0,
};

impl Progress for Heard {
    fn reached(&mut self, _what: Done, times: usize, of: usize) {
        if self.first.is_none() {
            self.first = Some(times);
        }
        self.last = times;
        self.of = of;
        self.reports = self.reports.saturating_add(1);
    }

    fn ended(&mut self) {}
}

/// A migration that has ended: how many trees the new store has, or why it wasn't done; the bytes of the old file, and the new disk.
#[derive(Drop)]
pub struct Ended {
    pub stored: Result<usize, MigrateFault>,
    pub old: Vec<u8>,
    pub new: MemDisk,
    pub heard: Heard,
}

/// Migrates a file of the first version to a disk.
pub fn migrated(
    alloc: Global,
    sample: &Sample,
    old: &[u8],
    target: MemDisk,
) -> Result<Ended, Fail> {
    let source = disk_of(alloc, old)?;
    let mut heard = NOTHING;
    let ended = migrate(
        alloc,
        source,
        target,
        &sample.table,
        Rides::new(3),
        &mut heard,
    );
    let (stored, source, new) = match ended {
        Ok(done) => {
            let stored = done.store.stored().len();
            (Ok(stored), done.source, done.store.into_disk())
        }
        Err((fault, source, new)) => (Err(fault), source, new),
    };
    let mut source = source;
    let old = bytes_of(alloc, &mut source)?;
    Ok(Ended {
        stored,
        old,
        new,
        heard,
    })
}

// The tree of A's text without its last node, the ride to D, and that text of the first version.
const FEW: &[u8] = b"\x00\x00\x00\x00\x00\x00\x00\x02\
    \x00\x00\x00\x00\x00\x00\x00\x01\x00\x00\x00\x01\x00\x00\x00\x01\x00\x00\x00\x01\
    \x00\x00\x00\x01\x00\x00\x00\x03\x00\x00\x00\x01\x00\x00\x00\x03\x00\x00\x00\x00\
    \x00\x00\x00\x00\x00\x00\x00\x02\x00\x00\x00\x02\x00\x00\x00\x02\x00\x00\x00\x04\x00\x00\x00\x00";

const OLD_FEW: &[u8] = b"\x00\x00\x00\x00\x00\x02\x00\x00\x00\x01\x00\x01\x00\x01\x00\x00\x00\x01\
    \x00\x01\x00\x03\x00\x01\x00\x03\x00\x00\x00\x00\x00\x00\x00\x02\x00\x02\x00\x02\x00\x04\x00\x00\x00\x00";

// The trees of an old file, those of the new one, and those that it has in the end, or why it is as it was.
const LISTS: [(&[&[u8]], &[&[u8]], Result<&[&[u8]], MigrateFault>); 12] = [
    (&first::TEXTS, &[], Ok(&TEXTS)),
    (&first::TEXTS, &[A], Ok(&TEXTS)),
    (&first::TEXTS, &[A, B, C, D], Ok(&TEXTS)),
    (&first::TEXTS, &TEXTS, Ok(&TEXTS)),
    (&[], &[], Ok(&[])),
    (&[first::E, OLD_FEW], &[E], Ok(&[E, FEW])),
    (&first::TEXTS, &[B], Err(OtherList)),
    (&first::TEXTS, &[FEW], Err(OtherList)),
    (&[first::A], &[A, B], Err(OtherList)),
    (&[], &[C], Err(OtherList)),
    (&[first::A, first::A], &[B], Err(Old(Damaged(1)))),
    (&first::TEXTS, &[A, A], Err(New(Damaged(1)))),
];

// Whether the migration of one file to another ends so, and leaves the new one with these bytes. The old one must be as it was.
fn ends_as(
    alloc: Global,
    sample: &Sample,
    files: (&[u8], &[u8]),
    wanted: Result<usize, MigrateFault>,
    after: &[u8],
) -> Result<bool, Fail> {
    let (old, new) = files;
    let mut ended = migrated(alloc, sample, old, disk_of(alloc, new)?)?;
    let left = bytes_of(alloc, &mut ended.new)?;
    Ok(ended.stored == wanted && ended.old.as_slice() == old && left.as_slice() == after)
}

// What is reported of a migration of `all` trees to a store that has the first `before` of them.
fn reported(before: usize, all: usize) -> Heard {
    Heard {
        first: Some(before),
        last: all,
        of: all,
        reports: all.saturating_sub(before).saturating_add(1),
    }
}

#[test]
fn reports(rt: HostRuntime) -> Result<(), Fail> {
    let sample = Sample::new(&rt)?;
    let old = file_of(rt.alloc(), HEADER, &first::TEXTS)?;
    let rows: [(&[&[u8]], Heard); 4] = [
        (&[], reported(0, 5)),
        (&[A, B], reported(2, 5)),
        (&TEXTS, reported(5, 5)),
        (&[B], NOTHING),
    ];
    for (texts, wanted) in rows {
        let new = file_of(rt.alloc(), &sample.header, texts)?;
        let target = disk_of(rt.alloc(), &new)?;
        let ended = migrated(rt.alloc(), &sample, &old, target)?;
        assert_eq!(rt; ended.heard, wanted);
    }
    Ok(())
}

// Goes over the lists.
fn check_lists(rt: &impl Abort, alloc: Global, sample: &Sample) -> Result<(), Fail> {
    for (number, (old, new, wanted)) in LISTS.iter().enumerate() {
        let (stored, after) = match wanted {
            Ok(texts) => (Ok(texts.len()), texts),
            Err(fault) => (Err(*fault), new),
        };
        let after = file_of(alloc, &sample.header, after)?;
        let old = file_of(alloc, HEADER, old)?;
        let new = file_of(alloc, &sample.header, new)?;
        let ended = ends_as(alloc, sample, (&old, &new), stored, &after)?;
        assert!(rt; ended, "list {number}");
    }
    Ok(())
}

#[test]
fn lists(rt: HostRuntime) -> Result<(), Fail> {
    let sample = Sample::new(&rt)?;
    check_lists(&rt, rt.alloc(), &sample)
}

// From an empty file, to an empty one, and with the two files exchanged.
fn check_files(rt: &impl Abort, alloc: Global, sample: &Sample) -> Result<(), Fail> {
    let old = file_of(alloc, HEADER, &first::TEXTS)?;
    let new = file_of(alloc, &sample.header, &TEXTS)?;
    let begun = file_of(alloc, &sample.header, &[])?;
    assert_eq!(rt; (old.len(), new.len()), (286, 368));
    let others: [(&[u8], &[u8], Result<usize, MigrateFault>, &[u8]); 4] = [
        (&old, &[], Ok(5), &new),
        (&[], &[], Ok(0), &begun),
        (&new, &[], Err(Old(NotAStore)), &[]),
        (&old, &old, Err(New(OldVersion)), &old),
    ];
    for (number, (from, to, wanted, after)) in others.iter().enumerate() {
        let ended = ends_as(alloc, sample, (from, to), *wanted, after)?;
        assert!(rt; ended, "file {number}");
    }
    Ok(())
}

#[test]
fn files(rt: HostRuntime) -> Result<(), Fail> {
    let sample = Sample::new(&rt)?;
    check_files(&rt, rt.alloc(), &sample)
}
