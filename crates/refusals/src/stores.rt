//! Stores on a disk in memory, which takes memory too: put to, and opened.

use crate::seen::Seen;
use disk_model::{Disk, MemDisk};
use pattern_tree::Finished;
use recovery::recover;
use sample_store::{Sample, TEXTS, bytes_of, file_of, is_first, new_store};
use section_store::{PutFault, SectionStore};
use std::alloc::Global;
use std::test::Fail;
use store_faults::RecoverFault;
use timetable::Rides;

// What a put answers if it has no memory.
const NO_MEMORY: &str = "P5 Memory";

// What it did then.
const NO_CALL: &str = "no call of the disk";

/// What an opening answers for want of memory: that of the device only if a call of the disk failed, since the disk in memory had none
/// for it. None of any other fault.
pub fn want_of(fault: RecoverFault, failures: u64) -> Option<&'static str> {
    match (fault, failures) {
        (RecoverFault::Memory, 0) => Some("Z6 Memory"),
        (RecoverFault::Device, 1) => Some("Z5 Device"),
        _ => None,
    }
}

// How many trees a disk's file stands for.
fn trees_on(alloc: Global, sample: &Sample, disk: MemDisk) -> Option<usize> {
    match recover(alloc, disk, &sample.table, Rides::new(3)) {
        Ok(recovered) => Some(recovered.trees.len()),
        Err(_) => None,
    }
}

// Puts a tree. `Ok` has its number in the list.
fn put_one(store: &mut SectionStore<MemDisk>, tree: &Finished) -> Result<usize, PutFault> {
    let receipt = store.put(tree)?;
    Ok(receipt.number())
}

// A put in a store with three trees failed, since the disk had no memory for a call: there are these, or these and the tree.
fn after_device(
    alloc: Global,
    sample: &Sample,
    store: SectionStore<MemDisk>,
    tree: &Finished,
) -> Seen {
    let mut store = store;
    let failed = store.disk().failures() == 1;
    let refused = put_one(&mut store, tree) == Err(PutFault::Failed);
    let mut disk = store.into_disk();
    disk.fail_at(0);
    let there = matches!(trees_on(alloc, sample, disk), Some(3 | 4));
    Seen::again(
        "P3 Device",
        "the list before or after",
        failed && refused && there,
    )
}

// A put whose first call of the disk fails.
fn put_failing(store: &mut SectionStore<MemDisk>, tree: &Finished) -> Seen {
    match put_one(store, tree) {
        Err(PutFault::Device) => Seen::Right,
        Err(PutFault::Memory) => {
            let is_next = put_one(store, tree) == Err(PutFault::Device);
            Seen::again(NO_MEMORY, NO_CALL, is_next)
        }
        _ => Seen::Wrong("a put of B"),
    }
}

// A store of the trees of C, D and E, whose sections are short.
fn store_of_three(alloc: Global, sample: &Sample) -> Result<SectionStore<MemDisk>, Fail> {
    let mut store = new_store(alloc, sample)?;
    for tree in sample.trees.iter().skip(2) {
        store.put(tree)?;
    }
    Ok(store)
}

// A put of a tree after three; the later one is put after it.
fn put_two(
    alloc: Global,
    sample: &Sample,
    store: SectionStore<MemDisk>,
    tree: &Finished,
    later: &Finished,
) -> Seen {
    let mut store = store;
    let seen = match put_one(&mut store, tree) {
        Ok(3) => Seen::Right,
        Err(PutFault::Memory) => {
            let is_next = put_one(&mut store, tree) == Ok(3);
            Seen::again(NO_MEMORY, NO_CALL, is_next)
        }
        Err(PutFault::Device) => return after_device(alloc, sample, store, tree),
        _ => Seen::Wrong("a put of A"),
    };
    put_failing(&mut store, later).after(seen)
}

/// A put of A's tree after three, for whose section there is no room in the buffer, and one of B's, for which there is none in the list.
/// The fifth call of the disk from then on fails. It is the call of B's tree, since A's makes four, and a put that is refused for want of
/// memory makes none.
pub fn put(alloc: Global, sample: &Sample) -> Result<Seen, Fail> {
    let [a, b, ..] = sample.trees.as_slice() else {
        return Err(Fail::new("no trees of A and B"));
    };
    let mut store = store_of_three(alloc, sample)?;
    store.fail_at(5);
    Ok(put_two(alloc, sample, store, a, b))
}

// The store is opened once more, whose disk came back with this fault.
fn recovered_again(
    alloc: Global,
    sample: &Sample,
    file: &[u8],
    fault: RecoverFault,
    disk: MemDisk,
) -> Result<Seen, Fail> {
    let mut disk = disk;
    let Some(fault) = want_of(fault, disk.failures()) else {
        return Ok(Seen::Wrong("another fault of recover"));
    };
    if bytes_of(alloc, &mut disk)?.as_slice() != file {
        return Ok(Seen::Wrong("other bytes"));
    }
    let is_right = trees_on(alloc, sample, disk) == Some(5);
    Ok(Seen::again(fault, "the same bytes", is_right))
}

// The opening of a disk with this file.
fn recovered_from(alloc: Global, sample: &Sample, file: &[u8]) -> Result<Seen, Fail> {
    let mut disk = MemDisk::new(alloc);
    disk.write_at(0, file)?;
    match recover(alloc, disk, &sample.table, Rides::new(3)) {
        Ok(recovered) => {
            let is_right = recovered.trees.len() == 5 && is_first(recovered.store.stored());
            Ok(Seen::right_if(is_right, "other trees"))
        }
        Err((fault, disk)) => recovered_again(alloc, sample, file, fault, disk),
    }
}

/// The opening of the file of all five trees, of 368 bytes.
pub fn recovered(alloc: Global, sample: &Sample) -> Result<Seen, Fail> {
    let file = file_of(alloc, &sample.header, &TEXTS)?;
    if file.len() != 368 {
        return Ok(Seen::Wrong("the file's length"));
    }
    recovered_from(alloc, sample, &file)
}
