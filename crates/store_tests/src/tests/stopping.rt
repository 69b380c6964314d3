//! Stores whose disk fails: in a put, which is followed by a crash, and while they are opened.

use super::opening::Opening;
use super::refused::store_of_a;
use disk_model::{Disk, MemDisk};
use recovery::{Recovered, recover};
use sample_feed::demo;
use sample_store::{Sample, TEXTS, bytes_of, file_of};
use section_store::{PutFault, SectionStore};
use std::alloc::Global;
use std::process::Abort;
use std::test::Fail;
use store_faults::RecoverFault;
use timetable::Rides;

// At which of its four calls of the disk a put of B's tree fails, how long a crash leaves the file, which byte stands then wherever
// any may, and how many trees are found. B's section is written to the bytes from 272 on, the gate before it to 271.
const STOPS: [(u64, u64, u8, usize); 8] = [
    (1, 272, 0xA5, 1),
    (1, 329, 0xA5, 1),
    (2, 290, 0x00, 1),
    (2, 329, 0xA5, 1),
    (3, 329, 0x5A, 1),
    (3, 329, 0xA5, 2),
    (4, 329, 0x00, 1),
    (4, 329, 0xA5, 2),
];

// The disk of a store with A's tree, whose put of B's failed at its n-th call.
fn stopped(alloc: Global, sample: &Sample, n: u64) -> Result<MemDisk, Fail> {
    let mut store = store_of_a(alloc, sample)?;
    let b = sample.trees.get(1).ok_or("no tree of B")?;
    store.fail_at(n);
    match (store.put(b), store.put(b)) {
        (Err(PutFault::Device), Err(PutFault::Failed)) => Ok(store.into_disk()),
        _ => Err(Fail::new("another answer of a put")),
    }
}

// The bytes of a store's file.
fn file_in(alloc: Global, store: SectionStore<MemDisk>) -> Result<Vec<u8>, Fail> {
    let mut disk = store.into_disk();
    bytes_of(alloc, &mut disk)
}

// Opens a store and puts the trees that it hasn't. Gives how many it had, and its file.
fn finished(alloc: Global, sample: &Sample, disk: MemDisk) -> Result<(usize, Vec<u8>), Fail> {
    match recover(alloc, disk, &sample.table, Rides::new(3)) {
        Ok(Recovered { mut store, trees }) => {
            for tree in sample.trees.iter().skip(trees.len()) {
                store.put(tree)?;
            }
            Ok((trees.len(), file_in(alloc, store)?))
        }
        Err(_) => Err(Fail::new("the store wasn't opened")),
    }
}

// How many trees are found after that stop and a crash that left `len` bytes; and the file, once the others are put.
fn found_after(
    alloc: Global,
    sample: &Sample,
    call: u64,
    len: u64,
    byte: u8,
) -> Result<(usize, Vec<u8>), Fail> {
    match stopped(alloc, sample, call)?.crash(len, &[byte; 58]) {
        Ok(disk) => finished(alloc, sample, disk),
        Err(_) => Err(Fail::new("no such crash")),
    }
}

// Goes over the stops.
fn check_stops(rt: &impl Abort, alloc: Global, sample: &Sample) -> Result<(), Fail> {
    let wanted = file_of(alloc, &sample.header, &TEXTS)?;
    for (call, len, byte, trees) in STOPS {
        let (found, file) = found_after(alloc, sample, call, len, byte)?;
        assert_eq!(rt; found, trees, "call {call}, {len} bytes");
        assert!(rt; file.as_slice() == wanted.as_slice());
    }
    Ok(())
}

#[test]
fn stopped_puts(rt: HostRuntime) -> Result<(), Fail> {
    let sample = Sample::new(&rt)?;
    check_stops(&rt, rt.alloc(), &sample)
}

// Whether opening the file of five trees is refused if the n-th call of the disk fails. Its bytes must then be as they were.
fn is_refused(alloc: Global, own: &Opening, file: &[u8], n: u64) -> Result<bool, Fail> {
    let mut disk = MemDisk::new(alloc);
    disk.write_at(0, file)?;
    disk.fail_at(n);
    match recover(alloc, disk, &own.table, own.rides) {
        Ok(_) => Ok(false),
        Err((RecoverFault::Device, mut disk)) => {
            if bytes_of(alloc, &mut disk)?.as_slice() != file {
                return Err(Fail::new("the file was changed"));
            }
            Ok(true)
        }
        Err(_) => Err(Fail::new("another fault")),
    }
}

// Opening that file takes 15 calls of the disk: a sync, its length, two reads of the header, two of each section, and one of the
// last gate.
fn check_calls(rt: &impl Abort, alloc: Global, own: &Opening) -> Result<(), Fail> {
    let file = file_of(alloc, &own.header, &TEXTS)?;
    for n in 1..=16 {
        assert_eq!(rt; is_refused(alloc, own, &file, n)?, n < 16, "call {n}");
    }
    Ok(())
}

#[test]
fn failed_calls(rt: HostRuntime) -> Result<(), Fail> {
    let own = Opening::new(rt.alloc(), demo(&rt)?, Rides::new(3))?;
    check_calls(&rt, rt.alloc(), &own)
}
