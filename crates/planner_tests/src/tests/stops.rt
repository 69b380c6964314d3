//! Every crash of a put: at each call of the disk, done and failed, of each length, with several fills.

use super::events::{Event, replies_to, step_of};
use disk_model::MemDisk;
use planner_core::{Reply, Step};
use sample_store::{A, B, Sample, file_of, is_first};
use section_store::laws::empty_is_trusted;
use std::alloc::{AllocError, Global};
use std::process::Abort;
use std::test::Fail;
use work_ledger::Outcome;

// A is acknowledged, and B is in hand.
const BEFORE: [Event; 11] = [
    Event::Claim(0),
    Event::HandIn(0, 0),
    Event::Take,
    Event::WriteBody(false),
    Event::SyncBody(false),
    Event::OpenGate(false),
    Event::SyncGate(false),
    Event::Ack(0, Outcome::Keep),
    Event::Claim(0),
    Event::HandIn(0, 1),
    Event::Take,
];

// After which calls of the disk a crash comes, the place whose bytes were written last, how many crashes are possible, five of each
// length, and after how many of them B is recovered beside A.
#[derive(Clone, Copy)]
struct Stop {
    calls: &'static [Event],
    place: usize,
    crashes: usize,
    found: usize,
}

// B's section lies after its gate, at 271, and the file has 329 bytes with it. While it isn't synced, each length from 272 on is
// possible. While its gate isn't synced, it is open after two of five fills.
const STOPS: [Stop; 9] = [
    Stop {
        calls: &[],
        place: 272,
        crashes: 5,
        found: 0,
    },
    Stop {
        calls: &[Event::WriteBody(true)],
        place: 272,
        crashes: 290,
        found: 0,
    },
    Stop {
        calls: &[Event::WriteBody(false)],
        place: 272,
        crashes: 290,
        found: 0,
    },
    Stop {
        calls: &[Event::WriteBody(false), Event::SyncBody(true)],
        place: 272,
        crashes: 290,
        found: 0,
    },
    Stop {
        calls: &[Event::WriteBody(false), Event::SyncBody(false)],
        place: 271,
        crashes: 5,
        found: 0,
    },
    Stop {
        calls: &[
            Event::WriteBody(false),
            Event::SyncBody(false),
            Event::OpenGate(true),
        ],
        place: 271,
        crashes: 5,
        found: 2,
    },
    Stop {
        calls: &[
            Event::WriteBody(false),
            Event::SyncBody(false),
            Event::OpenGate(false),
        ],
        place: 271,
        crashes: 5,
        found: 2,
    },
    Stop {
        calls: &[
            Event::WriteBody(false),
            Event::SyncBody(false),
            Event::OpenGate(false),
            Event::SyncGate(true),
        ],
        place: 271,
        crashes: 5,
        found: 2,
    },
    Stop {
        calls: &[
            Event::WriteBody(false),
            Event::SyncBody(false),
            Event::OpenGate(false),
            Event::SyncGate(false),
        ],
        place: 271,
        crashes: 5,
        found: 5,
    },
];

// What a crash leaves wherever it leaves any bytes: zeros, ones, open gates, what was being written, and that turned over.
#[derive(Clone, Copy)]
enum Fill {
    Each(u8),
    Written,
    Turned,
}

const FILLS: [Fill; 5] = [
    Fill::Each(0),
    Fill::Each(0xFF),
    Fill::Each(0xA5),
    Fill::Written,
    Fill::Turned,
];

fn filled(alloc: Global, fill: Fill, written: &[u8]) -> Result<Vec<u8>, AllocError> {
    let mut bytes = written.to_vec(alloc)?;
    for byte in bytes.iter_mut() {
        *byte = match fill {
            Fill::Each(value) => value,
            Fill::Written => *byte,
            Fill::Turned => !*byte,
        };
    }
    Ok(bytes)
}

// The steps up to a crash after these calls, and a restart.
fn steps_to(
    alloc: Global,
    sample: &Sample,
    calls: &[Event],
    crash: Step,
) -> Result<Vec<Step>, Fail> {
    let mut steps = Vec::new(alloc);
    for event in BEFORE.iter().chain(calls) {
        steps.push(step_of(alloc, sample, *event)?)?;
    }
    steps.push(crash)?;
    steps.push(Step::Restart)?;
    Ok(steps)
}

// How many trees are recovered, the first ones; none if the crash isn't possible.
fn found_after(
    alloc: Global,
    sample: &Sample,
    calls: &[Event],
    crash: Step,
) -> Result<Option<usize>, Fail> {
    empty_is_trusted();
    let steps = steps_to(alloc, sample, calls, crash)?;
    let replies = replies_to(alloc, &sample.table, MemDisk::new(alloc), &steps)?;
    match replies.last() {
        Some(Reply::Restarted(list)) if is_first(list) => Ok(Some(list.len())),
        Some(Reply::Idle) => Ok(None),
        _ => Err(Fail::new("another reply")),
    }
}

// How many crashes are possible at that stop, and after how many of them B is found beside A. A is found after each.
fn counts_of(
    alloc: Global,
    sample: &Sample,
    calls: &[Event],
    written: &[u8],
) -> Result<(usize, usize), Fail> {
    let mut crashes = 0_usize;
    let mut found = 0_usize;
    for len in 0..=340 {
        for fill in FILLS {
            let crash = Step::Crash(len, filled(alloc, fill, written)?);
            match found_after(alloc, sample, calls, crash)? {
                None => {}
                Some(1) => crashes = crashes.saturating_add(1),
                Some(2) => {
                    crashes = crashes.saturating_add(1);
                    found = found.saturating_add(1);
                }
                Some(_) => return Err(Fail::new("other trees")),
            }
        }
    }
    Ok((crashes, found))
}

// Goes over the stops.
fn check_stops(rt: &impl Abort, alloc: Global, sample: &Sample) -> Result<(), Fail> {
    let file = file_of(alloc, &sample.header, &[A, B])?;
    for (number, stop) in STOPS.iter().enumerate() {
        let written = file.get(stop.place..).ok_or("a short file")?;
        let counts = counts_of(alloc, sample, stop.calls, written)?;
        assert_eq!(rt; counts, (stop.crashes, stop.found), "stop {number}");
    }
    Ok(())
}

#[test]
fn stops(rt: HostRuntime) -> Result<(), Fail> {
    let sample = Sample::new(&rt)?;
    check_stops(&rt, rt.alloc(), &sample)
}
