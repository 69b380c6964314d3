//! Builds on a disk that fails, and a question once the board is closed.

use super::setting::{Seen, Setting, ask, basis, open, open_on};
use disk_model::MemDisk;
use feed_basis::Basis;
use precomputing::{Gate, Outcome, precompute};
use std::alloc::Global;
use std::process::Abort;
use std::sync::Wait;
use std::sync::atomic::{AtomicU64, Ordering};
use std::test::Fail;
use std::thread::Threads;
use timetable::StopId;

// What came of a build.
#[derive(Clone, Copy, Debug, PartialEq, Eq)]
enum End {
    // No planner was opened.
    Unopened,
    // The device failed once that many trees were stored.
    Failed(usize),
    // That many are stored, each stop's.
    Done(usize),
    // Another end, or one before a build has ended.
    Other,
}

// When the calls of the disk fail, counted from 1: only one, or that and all later ones.
#[derive(Clone, Copy, Debug)]
enum Failing {
    Once,
    Since,
}

// Counts the builds that have begun and haven't ended.
#[derive(Drop)]
struct Unended {
    builds: AtomicU64,
}

impl Gate for Unended {
    fn before(&self, _worker: u8, _source: StopId) {
        self.builds.fetch_add(1, Ordering::SeqCst);
    }

    fn after(&self, _worker: u8, _source: StopId) {
        self.builds.fetch_sub(1, Ordering::SeqCst);
    }
}

// An empty disk whose n-th call fails, and perhaps all later ones.
fn failing_disk(alloc: Global, failing: Failing, n: u64) -> MemDisk {
    let mut disk = MemDisk::new(alloc);
    match failing {
        Failing::Once => disk.fail_at(n),
        Failing::Since => disk.stop_at(n),
    }
    disk
}

// Builds on such a disk.
fn end_at<R: Threads + Wait + Sync>(
    rt: &R,
    alloc: Global,
    basis: &Basis,
    workers: usize,
    disk: MemDisk,
) -> End {
    if workers == 0 || workers > 64 {
        return End::Other;
    }
    let Some(setting) = open_on(rt, alloc, basis, disk) else {
        return End::Unopened;
    };
    let Setting {
        planner,
        desk,
        reader: _reader,
    } = setting;
    let gate = Unended {
        builds: AtomicU64::new(0),
    };
    let (desk, outcome) = precompute(alloc, rt, desk, &planner, workers, &gate);
    let unended = gate.builds.load(Ordering::SeqCst);
    let stored = desk.stored().len();
    let _disk = desk.into_disk(rt);
    match outcome {
        _ if unended > 0 => End::Other,
        Outcome::Done => End::Done(stored),
        Outcome::DeviceFailed => End::Failed(stored),
        Outcome::Partial(_) | Outcome::NoMemory => End::Other,
    }
}

// What comes of it if `calls` calls of the disk were made after the opening: each of the five trees is put by four.
fn end_after(calls: usize) -> End {
    if calls < 20 {
        End::Failed(calls / 4)
    } else {
        End::Done(5)
    }
}

// Goes over the calls: those of the opening, and those after it.
fn check_ends<R: Threads + Wait + Sync>(
    rt: &R,
    test: &impl Abort,
    alloc: Global,
    basis: &Basis,
    workers: usize,
    failing: Failing,
) -> usize {
    let mut calls = 0_usize;
    for n in 1..=40 {
        let disk = failing_disk(alloc, failing, n);
        let end = end_at(rt, alloc, basis, workers, disk);
        if calls > 0 || end != End::Unopened {
            assert_eq!(test; end, end_after(calls), "call {n}, {workers} workers");
            calls = calls.saturating_add(1);
        }
    }
    calls
}

#[test]
fn a_device_that_fails(rt: HostRuntime) -> Result<(), Fail> {
    let basis = basis(&rt)?;
    for workers in [1, 2, 4] {
        for failing in [Failing::Once, Failing::Since] {
            let calls = check_ends(&rt, &rt, rt.alloc(), &basis, workers, failing);
            assert!(rt; calls > 20, "{workers} workers, {failing:?}");
        }
    }
    Ok(())
}

// What is seen before the writer of the board is let go, and after.
fn seen_at_the_end<R: Wait>(rt: &R, alloc: Global, basis: &Basis) -> Option<(Seen, Seen)> {
    let Some(setting) = open(rt, alloc, basis) else {
        return None;
    };
    let Setting {
        planner,
        desk,
        reader,
    } = setting;
    let (reader, before) = ask(&planner, reader);
    let _disk = desk.into_disk(rt);
    let (_reader, after) = ask(&planner, reader);
    Some((before, after))
}

#[test]
fn a_closed_board(rt: HostRuntime) -> Result<(), Fail> {
    let basis = basis(&rt)?;
    let seen = seen_at_the_end(&rt, rt.alloc(), &basis);
    assert!(rt; matches!(seen, Some((Seen::Lacking, Seen::Refused))));
    Ok(())
}
