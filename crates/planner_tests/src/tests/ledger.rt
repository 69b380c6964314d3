//! Runs of workers and of the flusher at the ledger, which has room for four waiting trees.

use super::events::{Event, Wanted, are_wanted, replies_to, steps_of};
use disk_model::MemDisk;
use sample_store::{Sample, tree_of};
use section_store::laws::empty_is_trusted;
use std::alloc::Global;
use std::process::Abort;
use std::test::Fail;
use timetable::Rides;
use work_ledger::Outcome;

// A is given up by whom it was given to, and isn't given out again before a restart. Once the ledger is stopped, B may still come.
const GIVEN_BACK: [(Event, Wanted); 22] = [
    (Event::Take, Wanted::Empty),
    (Event::Claim(0), Wanted::Source(0)),
    (Event::GiveBack(1, 0), Wanted::NotYours),
    (Event::GiveBack(0, 1), Wanted::NotYours),
    (Event::GiveBack(0, 0), Wanted::Done),
    (Event::GiveBack(0, 0), Wanted::NotYours),
    (Event::HandIn(0, 0), Wanted::NotYours),
    (Event::Claim(0), Wanted::Source(1)),
    (Event::Stop, Wanted::Done),
    (Event::Claim(1), Wanted::Closed),
    (Event::Take, Wanted::Empty),
    (Event::HandIn(0, 1), Wanted::Done),
    (Event::Stop, Wanted::Done),
    (Event::Take, Wanted::Tree(1)),
    (Event::Take, Wanted::Idle),
    (Event::Ack(1, Outcome::Discard), Wanted::Done),
    (Event::Take, Wanted::Closed),
    (Event::Crash(175, &[]), Wanted::Crashed),
    (Event::GiveBack(0, 1), Wanted::Idle),
    (Event::Stop, Wanted::Idle),
    (Event::Restart, Wanted::Restarted(&[])),
    (Event::Claim(0), Wanted::Source(0)),
];

// All five sources are given out: no other claim gets one, whether they are claimed, wait, are in hand or settled. Four trees wait, and
// the fifth waits once one of them is taken.
const FULL: [(Event, Wanted); 20] = [
    (Event::Claim(0), Wanted::Source(0)),
    (Event::Claim(0), Wanted::Source(1)),
    (Event::Claim(0), Wanted::Source(2)),
    (Event::Claim(1), Wanted::Source(3)),
    (Event::Claim(1), Wanted::Source(4)),
    (Event::Claim(0), Wanted::Closed),
    (Event::HandIn(0, 2), Wanted::Done),
    (Event::HandIn(0, 0), Wanted::Done),
    (Event::HandIn(0, 1), Wanted::Done),
    (Event::HandIn(1, 3), Wanted::Done),
    (Event::HandIn(1, 4), Wanted::Full),
    (Event::Claim(1), Wanted::Closed),
    (Event::Take, Wanted::Tree(2)),
    (Event::HandIn(1, 4), Wanted::Done),
    (Event::Claim(1), Wanted::Closed),
    (Event::Ack(0, Outcome::Discard), Wanted::NotYours),
    (Event::Ack(2, Outcome::Discard), Wanted::Done),
    (Event::Ack(2, Outcome::Discard), Wanted::NotYours),
    (Event::Take, Wanted::Tree(0)),
    (Event::Claim(1), Wanted::Closed),
];

// A is stored: it is kept, so the next claim gets B.
const KEPT: [(Event, Wanted); 9] = [
    (Event::Claim(0), Wanted::Source(0)),
    (Event::HandIn(0, 0), Wanted::Done),
    (Event::Take, Wanted::Tree(0)),
    (Event::WriteBody(false), Wanted::Made),
    (Event::SyncBody(false), Wanted::Made),
    (Event::OpenGate(false), Wanted::Made),
    (Event::SyncGate(false), Wanted::Receipt(0)),
    (Event::Ack(0, Outcome::Keep), Wanted::Done),
    (Event::Claim(0), Wanted::Source(1)),
];

// A's tree for journeys of at most two rides isn't taken in, and A stays with whom it was given to.
const OF_TWO_RIDES: [(Event, Wanted); 5] = [
    (Event::Claim(0), Wanted::Source(0)),
    (Event::HandIn(0, OTHER), Wanted::OtherTimetable),
    (Event::HandIn(1, OTHER), Wanted::OtherTimetable),
    (Event::Take, Wanted::Empty),
    (Event::HandIn(0, 0), Wanted::Done),
];

// Behind the trees of the five stops.
const OTHER: usize = 5;

const RUNS: [&[(Event, Wanted)]; 4] = [&GIVEN_BACK, &FULL, &KEPT, &OF_TWO_RIDES];

// Goes over the runs.
fn check_runs(rt: &impl Abort, alloc: Global, sample: &Sample) -> Result<(), Fail> {
    empty_is_trusted();
    for (number, rows) in RUNS.iter().enumerate() {
        let steps = steps_of(alloc, sample, rows)?;
        let replies = replies_to(alloc, &sample.table, MemDisk::new(alloc), &steps)?;
        assert!(rt; are_wanted(&replies, rows), "run {number}");
    }
    Ok(())
}

#[test]
fn ledger_steps(rt: HostRuntime) -> Result<(), Fail> {
    let mut sample = Sample::new(&rt)?;
    let other = tree_of(rt.alloc(), &sample.table, 0, Rides::new(2))?;
    sample.trees.push(other)?;
    check_runs(&rt, rt.alloc(), &sample)
}
