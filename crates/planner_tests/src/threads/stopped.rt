//! A build that was asked to stop before it began, and one that finds each tree stored.

use super::setting::{Setting, basis, open_on};
use disk_model::{MemDisk, read_up_to};
use feed_basis::Basis;
use precomputing::{Gate, Halt, Outcome, precompute_until};
use std::alloc::Global;
use std::sync::Wait;
use std::sync::atomic::{AtomicU64, Ordering};
use std::test::Fail;
use std::thread::Threads;
use timetable::StopId;

// A gate that counts the builds that begin.
#[derive(Drop)]
struct Count {
    builds: AtomicU64,
}

impl Gate for Count {
    fn before(&self, _worker: u8, _source: StopId) {
        self.builds.fetch_add(1, Ordering::SeqCst);
    }

    fn after(&self, _worker: u8, _source: StopId) {}
}

// What came of a build, how many builds of a tree began, and the disk.
#[derive(Drop)]
struct Built {
    outcome: Outcome,
    builds: u64,
    disk: MemDisk,
}

// Builds the trees that the disk lacks, by that number of `workers`.
fn build_on<R: Threads + Wait + Sync>(
    rt: &R,
    alloc: Global,
    basis: &Basis,
    disk: MemDisk,
    workers: usize,
    stop: &Halt,
) -> Result<Built, Fail> {
    if workers == 0 || workers > 64 {
        return Err(Fail::new("too few workers or too many"));
    }
    let Some(setting) = open_on(rt, alloc, basis, disk) else {
        return Err(Fail::new("no planner was opened"));
    };
    let Setting {
        planner,
        desk,
        reader: _reader,
    } = setting;
    let gate = Count {
        builds: AtomicU64::new(0),
    };
    let (desk, outcome) = precompute_until(alloc, rt, desk, &planner, workers, &gate, stop);
    Ok(Built {
        outcome,
        builds: gate.builds.load(Ordering::SeqCst),
        disk: desk.into_disk(rt),
    })
}

// All bytes of a disk's file of at most 100,000.
fn file_on(alloc: Global, disk: &mut MemDisk) -> Result<Vec<u8>, Fail> {
    let mut bytes = Vec::new(alloc);
    read_up_to(disk, 0, 100_000, &mut bytes)?;
    Ok(bytes)
}

// Whether these are all stops of the sample feed, in their order.
fn is_each(list: &[StopId]) -> bool {
    list.len() == 5
        && list
            .iter()
            .enumerate()
            .all(|(index, stop)| stop.number() == index)
}

// The file of a store without a tree, as a planner is opened with it.
fn fresh_file<R: Wait>(rt: &R, alloc: Global, basis: &Basis) -> Result<Vec<u8>, Fail> {
    let Some(setting) = open_on(rt, alloc, basis, MemDisk::new(alloc)) else {
        return Err(Fail::new("no planner was opened"));
    };
    let Setting {
        planner: _planner,
        desk,
        reader: _reader,
    } = setting;
    let mut disk = desk.into_disk(rt);
    file_on(alloc, &mut disk)
}

// Whether nothing is claimed if the flag was set before.
fn claims_nothing<R: Threads + Wait + Sync>(
    rt: &R,
    alloc: Global,
    basis: &Basis,
    workers: usize,
) -> Result<bool, Fail> {
    let file = fresh_file(rt, alloc, basis)?;
    let stop = Halt::new();
    stop.now(rt);
    let Built {
        outcome,
        builds,
        mut disk,
    } = build_on(rt, alloc, basis, MemDisk::new(alloc), workers, &stop)?;
    let left = file_on(alloc, &mut disk)?;
    let is_rest = match &outcome {
        Outcome::Partial(missing) => is_each(missing),
        _ => false,
    };
    Ok(is_rest && builds == 0 && left == file)
}

// Whether a second build finds each tree of the first stored, and leaves the file as it is.
fn leaves_the_file<R: Threads + Wait + Sync>(
    rt: &R,
    alloc: Global,
    basis: &Basis,
    workers: usize,
) -> Result<bool, Fail> {
    let stop = Halt::new();
    let first = build_on(rt, alloc, basis, MemDisk::new(alloc), 2, &stop)?;
    let Built {
        outcome,
        builds,
        mut disk,
    } = first;
    let file = file_on(alloc, &mut disk)?;
    let second = build_on(rt, alloc, basis, disk, workers, &stop)?;
    let Built {
        outcome: again,
        builds: more,
        disk: mut last,
    } = second;
    let left = file_on(alloc, &mut last)?;
    let are_done = matches!(outcome, Outcome::Done) && matches!(again, Outcome::Done);
    Ok(are_done && builds == 5 && more == 0 && left == file)
}

#[test]
fn flag_set_before(rt: HostRuntime) -> Result<(), Fail> {
    let basis = basis(&rt)?;
    for workers in [1, 2, 64] {
        let right = claims_nothing(&rt, rt.alloc(), &basis, workers)?;
        assert!(rt; right, "with {workers}");
    }
    Ok(())
}

#[test]
fn built_twice(rt: HostRuntime) -> Result<(), Fail> {
    let basis = basis(&rt)?;
    for workers in [1, 64] {
        let right = leaves_the_file(&rt, rt.alloc(), &basis, workers)?;
        assert!(rt; right, "with {workers}");
    }
    Ok(())
}
