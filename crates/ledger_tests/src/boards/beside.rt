//! A reader that looks again and again while a writer publishes in another thread.

use super::setting::{Showing, opened, tree};
use board::Reader;
use sample_feed::demo;
use std::alloc::Global;
use std::sync::atomic::{AtomicBool, Ordering};
use std::sync::{Arc, Wait};
use std::test::Fail;
use std::thread;
use std::thread::Threads;
use std::time::{Clock, Duration, Instant};
use timetable::StopId;

// How many trees are published.
const PUBLISHED: u64 = 5_000;

// What a reader met that looks on and on: how many looks there were, how many trees the last of them showed. And whether each was given and
// showed all that the one before showed, and how long the slowest took.
#[derive(Drop)]
struct Looks {
    count: u64,
    last: u64,
    right: bool,
    slowest: Duration,
}

impl Looks {
    // None yet.
    fn none() -> Looks {
        Looks {
            count: 0,
            last: 0,
            right: true,
            slowest: Duration::ZERO,
        }
    }

    // Looks once more.
    fn look(&mut self, reader: Reader) -> Reader {
        self.count = self.count.wrapping_add(1);
        match reader.look() {
            Err(reader) => {
                self.right = false;
                reader
            }
            Ok(view) => {
                let shown = view.told().count();
                let found = view.patterns(StopId::new(0)).is_some();
                self.right = self.right && self.last <= shown && found == (shown > 0);
                self.last = shown;
                view.leave()
            }
        }
    }

    // Looks once more, and takes the time.
    fn look_timed<C: Clock>(&mut self, clock: &C, reader: Reader) -> Reader {
        let start = Instant::now(clock);
        let reader = self.look(reader);
        let time = start.and_then(|start| start.elapsed(clock));
        if let Ok(time) = time {
            self.slowest = self.slowest.max(time);
        }
        reader
    }
}

// Looks on and on, the last time after the writer ended. It has no leave to wait.
fn look_on<C: Clock>(clock: &C, reader: Reader, ended: &AtomicBool) -> Looks {
    let mut reader = reader;
    let mut looks = Looks::none();
    for _ in 0..u64::MAX {
        let is_last = ended.load(Ordering::SeqCst);
        reader = looks.look_timed(clock, reader);
        if is_last {
            break;
        }
    }
    looks
}

// Publishes all trees while another thread looks; what it met, and whether all were published.
fn side_by_side<R: Threads + Wait + Clock + Sync>(
    rt: &R,
    alloc: Global,
    showing: &mut Showing,
    reader: Reader,
) -> (Looks, bool) {
    let ended = AtomicBool::new(false);
    thread::join(
        rt,
        || look_on(rt, reader, &ended),
        || {
            let published = showing.show(rt, alloc, PUBLISHED);
            ended.store(true, Ordering::SeqCst);
            published
        },
    )
}

#[test]
fn looks_never_go_back(rt: HostRuntime) -> Result<(), Fail> {
    let alloc = rt.alloc();
    let table = Arc::new(alloc, demo(&rt)?)?;
    let tree = tree(alloc, &table, 0)?;
    let (writer, reader) = opened(&rt, alloc, &table)?;
    let mut showing = Showing { writer, tree };
    let (looks, published) = side_by_side(&rt, alloc, &mut showing, reader);
    showing.close(&rt);
    println!(rt;
        "{} looks, the slowest of {} microseconds",
        looks.count,
        looks.slowest.as_micros()
    )?;
    assert!(rt; published && looks.right);
    assert_eq!(rt; looks.last, PUBLISHED);
    Ok(())
}
