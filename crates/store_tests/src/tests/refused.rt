//! Puts that a store refuses, and what lies open while a section is written.

use super::nowhere::Nowhere;
use disk_model::MemDisk;
use pattern_tree::Finished;
use sample_feed::of_calls;
use sample_store::{A, Sample, bytes_of, file_of, new_store, tree_of};
use section_store::{Form, PutFault, SectionStore, StopSet};
use std::alloc::Global;
use std::process::Abort;
use std::sync::Arc;
use std::test::Fail;
use timetable::Rides;

/// A store with A's tree.
pub fn store_of_a(alloc: Global, sample: &Sample) -> Result<SectionStore<MemDisk>, Fail> {
    let mut store = new_store(alloc, sample)?;
    store.put(sample.trees.first().ok_or("no trees")?)?;
    Ok(store)
}

// Why a store with A's tree refuses another. Its file must then be as it was.
fn refusal_of(alloc: Global, sample: &Sample, tree: &Finished) -> Result<PutFault, Fail> {
    let mut store = store_of_a(alloc, sample)?;
    let Err(fault) = store.put(tree) else {
        return Err(Fail::new("the tree was put"));
    };
    let mut disk = store.into_disk();
    let file = file_of(alloc, &sample.header, &[A])?;
    if bytes_of(alloc, &mut disk)?.as_slice() != file.as_slice() {
        return Err(Fail::new("the file was changed"));
    }
    Ok(fault)
}

// Two calls in place of the sample feed's seven.
const FEWER: &str = "T1,A,1,08:00:00,08:00:00,,\nT1,B,2,08:10:00,08:10:00,,\n";

#[test]
fn refused_puts(rt: HostRuntime) -> Result<(), Fail> {
    let alloc = rt.alloc();
    let sample = Sample::new(&rt)?;
    let again = sample.trees.first().ok_or("no trees")?;
    assert!(rt; refusal_of(alloc, &sample, again)? == PutFault::AlreadyStored);
    let shallow = tree_of(alloc, &sample.table, 1, Rides::new(2))?;
    assert!(rt; refusal_of(alloc, &sample, &shallow)? == PutFault::OtherTimetable);
    let other = Arc::new(alloc, of_calls(&rt, FEWER)?)?;
    let foreign = tree_of(alloc, &other, 1, Rides::new(3))?;
    assert!(rt; refusal_of(alloc, &sample, &foreign)? == PutFault::OtherTimetable);
    Ok(())
}

// How a store whose closed gate stands at that place answers a put of A's tree, on a disk of which each call fails.
fn put_at(alloc: Global, sample: &Sample, place: u64) -> Result<PutFault, Fail> {
    let form = Form::new(Arc::try_clone(&sample.table)?, Rides::new(3));
    let none = StopSet::of(alloc, sample.table.stops(), &[])?;
    let mut store = SectionStore::resume(alloc, Nowhere::new(), form, Vec::new(alloc), none, place);
    match store.put(sample.trees.first().ok_or("no trees")?) {
        Ok(_) => Err(Fail::new("the tree was put")),
        Err(fault) => Ok(fault),
    }
}

// The section has 4 bytes for its length and 92 for its text, and a gate on either side. A file has 2 to the power of 40 bytes at most.
const LAST: u64 = 1_099_511_627_776 - 98;

#[test]
fn a_full_file(rt: HostRuntime) -> Result<(), Fail> {
    let sample = Sample::new(&rt)?;
    assert!(rt; put_at(rt.alloc(), &sample, LAST)? == PutFault::Device);
    assert!(rt; put_at(rt.alloc(), &sample, LAST + 1)? == PutFault::TooLarge);
    Ok(())
}

// At which of its four calls a put of A's tree fails in a new store, whose file has 175 bytes; a length; and how many bytes a crash that
// leaves it may leave in any way. None: no crash leaves that length.
const OPEN: [(u64, u64, Option<u64>); 9] = [
    (1, 174, None),
    (1, 175, Some(0)),
    (1, 220, Some(45)),
    (1, 272, Some(97)),
    (1, 273, None),
    (2, 272, Some(97)),
    (3, 271, None),
    (3, 272, Some(1)),
    (4, 272, Some(1)),
];

// The disk of a new store whose put of A's tree failed at its n-th call.
fn stopped(alloc: Global, sample: &Sample, n: u64) -> Result<MemDisk, Fail> {
    let mut store = new_store(alloc, sample)?;
    store.fail_at(n);
    match store.put(sample.trees.first().ok_or("no trees")?) {
        Err(PutFault::Device) => Ok(store.into_disk()),
        _ => Err(Fail::new("another answer of a put")),
    }
}

// Goes over the lengths.
fn check_open(rt: &impl Abort, alloc: Global, sample: &Sample) -> Result<(), Fail> {
    for (n, len, open) in OPEN {
        let disk = stopped(alloc, sample, n)?;
        assert!(rt; disk.open_bytes(len) == open, "call {n}, {len} bytes");
    }
    Ok(())
}

#[test]
fn what_lies_open(rt: HostRuntime) -> Result<(), Fail> {
    let sample = Sample::new(&rt)?;
    check_open(&rt, rt.alloc(), &sample)
}
