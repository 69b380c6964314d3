//! A build of so many trees that no more can wait to be stored.

ghost use Rattle.std.specs.Prelude.{◌≡◌};

use super::setting::{Setting, basis_over, open};
use feed_basis::Basis;
use precomputing::{Audience, Crew, Gate, Halt, Outcome, precompute_telling};
use progress::{Done, Progress};
use sample_feed::Feed;
use std::alloc::Global;
use std::fmt::Write;
use std::sync::Wait;
use std::sync::atomic::{AtomicU64, Ordering};
use std::test::Fail;
use std::thread;
use std::thread::Threads;
use stop_parts::Part;
use timetable::StopId;

// One tree is stored, 64 wait, and each of the two workers has one more.
const ENDED: u64 = 67;

// A gate that counts the builds that have ended.
#[derive(Drop)]
struct Count {
    ended: AtomicU64,
}

impl Gate for Count {
    fn before(&self, _worker: u8, _source: StopId) {}

    fn after(&self, _worker: u8, _source: StopId) {
        self.ended.fetch_add(1, Ordering::SeqCst);
    }
}

// Holds up the thread that stores, once it has stored a tree, until `ENDED` builds have ended, and some turns more. Notes how many have
// ended then.
#[derive(Drop)]
struct Waiting<'a> {
    count: &'a Count,
    ended: u64,
}

impl Progress for Waiting<'_> {
    fn reached(&mut self, _what: Done, times: usize, _of: usize) {
        if times != 1 {
            return;
        }
        for _ in 0..10_000_000_u32 {
            if self.count.ended.load(Ordering::SeqCst) >= ENDED {
                break;
            }
            thread::yield_now();
        }
        for _ in 0..10_000_u32 {
            thread::yield_now();
        }
        self.ended = self.count.ended.load(Ordering::SeqCst);
    }

    fn ended(&mut self) {}
}

// The sample feed's stops and 195 more.
fn stops_text(alloc: Global) -> Result<String, Fail> {
    let mut text = String::from_str(alloc, Feed::SAMPLE.stops)?;
    for number in 5..200_u32 {
        writeln!(text, "S{number}")?;
    }
    Ok(text)
}

// Whether no more trees are built than can wait, and all are stored at last.
fn fills<R: Threads + Wait + Sync>(rt: &R, alloc: Global, basis: &Basis) -> bool {
    let Some(setting) = open(rt, alloc, basis) else {
        return false;
    };
    let Setting {
        planner,
        desk,
        reader: _reader,
    } = setting;
    let count = Count {
        ended: AtomicU64::new(0),
    };
    let stop = Halt::new();
    let crew = Crew {
        workers: 2,
        part: Part::whole(),
        gate: &count,
        stop: &stop,
        audience: Audience::Readers,
    };
    let mut waiting = Waiting {
        count: &count,
        ended: 0,
    };
    let (desk, outcome) = precompute_telling(alloc, rt, desk, &planner, &crew, &mut waiting);
    let stored = desk.stored().len();
    let _disk = desk.into_disk(rt);
    waiting.ended == ENDED && matches!(outcome, Outcome::Done) && stored == 200
}

#[test]
fn workers_wait_once_64_trees_do(rt: HostRuntime) -> Result<(), Fail> {
    let stops = stops_text(rt.alloc())?;
    let feed = Feed {
        stops: &stops,
        ..Feed::SAMPLE
    };
    let basis = basis_over(&rt, feed)?;
    assert!(rt; fills(&rt, rt.alloc(), &basis));
    Ok(())
}
