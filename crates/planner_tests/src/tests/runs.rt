//! Runs on an empty disk, reply by reply.

use super::events::{Event, Wanted, are_wanted, replies_to, steps_of};
use disk_model::MemDisk;
use sample_store::Sample;
use section_store::laws::empty_is_trusted;
use std::alloc::Global;
use std::process::Abort;
use std::test::Fail;
use work_ledger::Outcome;

const ANY: [u8; 97] = [0xA5; 97];

const OPEN: [u8; 1] = [0xA5];

const SHUT: [u8; 1] = [0x5A];

// The header ends at 175 bytes, and A's section with the gate after it at 272: 97 places lie open while it is written.
const BODY: [(Event, Wanted); 14] = [
    (Event::Claim(0), Wanted::Source(0)),
    (Event::HandIn(1, 0), Wanted::NotYours),
    (Event::HandIn(0, 0), Wanted::Done),
    (Event::Take, Wanted::Tree(0)),
    (Event::OpenGate(false), Wanted::Idle),
    (Event::Publish, Wanted::Idle),
    (Event::WriteBody(false), Wanted::Made),
    (Event::WriteBody(false), Wanted::Idle),
    (Event::Ack(0, Outcome::Discard), Wanted::Idle),
    (Event::Crash(273, &ANY), Wanted::Idle),
    (Event::Crash(272, &OPEN), Wanted::Idle),
    (Event::Crash(230, &ANY), Wanted::Crashed),
    (Event::Claim(0), Wanted::Idle),
    (Event::Restart, Wanted::Restarted(&[])),
];

// A crash while the gate is opened leaves it open or shut.
const GATE: [(Event, Wanted); 14] = [
    (Event::Claim(0), Wanted::Source(0)),
    (Event::HandIn(0, 0), Wanted::Done),
    (Event::Take, Wanted::Tree(0)),
    (Event::WriteBody(false), Wanted::Made),
    (Event::SyncBody(false), Wanted::Made),
    (Event::OpenGate(false), Wanted::Made),
    (Event::Take, Wanted::Idle),
    (Event::Ack(0, Outcome::Keep), Wanted::Idle),
    (Event::Ask(0, 3, 28_800), Wanted::NotStored),
    (Event::Crash(272, &OPEN), Wanted::Crashed),
    (Event::Restart, Wanted::Restarted(&[0])),
    (Event::Restart, Wanted::Idle),
    (
        Event::Ask(0, 3, 28_800),
        Wanted::Answer(&[(32_400, 1), (31_200, 2)]),
    ),
    (Event::Claim(0), Wanted::Source(1)),
];

// Once with its write done, and once failed.
const SHUT_GATE: [(Event, Wanted); 17] = [
    (Event::Claim(0), Wanted::Source(0)),
    (Event::HandIn(0, 0), Wanted::Done),
    (Event::Take, Wanted::Tree(0)),
    (Event::WriteBody(false), Wanted::Made),
    (Event::SyncBody(false), Wanted::Made),
    (Event::OpenGate(false), Wanted::Made),
    (Event::Crash(272, &SHUT), Wanted::Crashed),
    (Event::Restart, Wanted::Restarted(&[])),
    (Event::Claim(0), Wanted::Source(0)),
    (Event::HandIn(0, 0), Wanted::Done),
    (Event::Take, Wanted::Tree(0)),
    (Event::WriteBody(false), Wanted::Made),
    (Event::SyncBody(false), Wanted::Made),
    (Event::OpenGate(true), Wanted::Failed),
    (Event::Crash(272, &SHUT), Wanted::Crashed),
    (Event::Restart, Wanted::Restarted(&[])),
    (Event::Ask(0, 3, 28_800), Wanted::NotStored),
];

// The whole put of A, and one of B that fails and is lost.
const PUT: [(Event, Wanted); 20] = [
    (Event::Claim(0), Wanted::Source(0)),
    (Event::HandIn(0, 0), Wanted::Done),
    (Event::Take, Wanted::Tree(0)),
    (Event::WriteBody(false), Wanted::Made),
    (Event::SyncBody(false), Wanted::Made),
    (Event::OpenGate(false), Wanted::Made),
    (Event::SyncGate(false), Wanted::Receipt(0)),
    (Event::Ask(0, 3, 28_800), Wanted::NotStored),
    (Event::Publish, Wanted::Published),
    (Event::Publish, Wanted::Idle),
    (Event::Ask(0, 3, 28_801), Wanted::Answer(&[(32_400, 1)])),
    (Event::Ask(0, 5, 28_800), Wanted::Idle),
    (Event::Ack(0, Outcome::Keep), Wanted::Done),
    (Event::Claim(7), Wanted::Source(1)),
    (Event::HandIn(7, 1), Wanted::Done),
    (Event::Take, Wanted::Tree(1)),
    (Event::WriteBody(true), Wanted::Failed),
    (Event::SyncBody(false), Wanted::Idle),
    (Event::Crash(272, &ANY), Wanted::Crashed),
    (Event::Restart, Wanted::Restarted(&[0])),
];

// B's gate is left open in the midst of its write: it is recovered. The file is left at 336 bytes in the midst of the write of C's
// section, which isn't found. Once C is put the file has 342 bytes.
const LIVES: [(Event, Wanted); 35] = [
    (Event::Claim(0), Wanted::Source(0)),
    (Event::HandIn(0, 0), Wanted::Done),
    (Event::Take, Wanted::Tree(0)),
    (Event::WriteBody(false), Wanted::Made),
    (Event::SyncBody(false), Wanted::Made),
    (Event::OpenGate(false), Wanted::Made),
    (Event::SyncGate(false), Wanted::Receipt(0)),
    (Event::Ack(0, Outcome::Keep), Wanted::Done),
    (Event::Claim(0), Wanted::Source(1)),
    (Event::HandIn(0, 1), Wanted::Done),
    (Event::Take, Wanted::Tree(1)),
    (Event::WriteBody(false), Wanted::Made),
    (Event::SyncBody(false), Wanted::Made),
    (Event::OpenGate(true), Wanted::Failed),
    (Event::Crash(329, &OPEN), Wanted::Crashed),
    (Event::Restart, Wanted::Restarted(&[0, 1])),
    (Event::Claim(0), Wanted::Source(2)),
    (Event::HandIn(0, 2), Wanted::Done),
    (Event::Take, Wanted::Tree(2)),
    (Event::WriteBody(true), Wanted::Failed),
    (Event::Crash(336, &ANY), Wanted::Crashed),
    (Event::Restart, Wanted::Restarted(&[0, 1])),
    (Event::Claim(0), Wanted::Source(2)),
    (Event::HandIn(0, 2), Wanted::Done),
    (Event::Take, Wanted::Tree(2)),
    (Event::WriteBody(false), Wanted::Made),
    (Event::SyncBody(false), Wanted::Made),
    (Event::OpenGate(false), Wanted::Made),
    (Event::SyncGate(false), Wanted::Receipt(2)),
    (Event::Publish, Wanted::Published),
    (Event::Ask(2, 3, 28_800), Wanted::Answer(&[])),
    (Event::Crash(341, &ANY), Wanted::Idle),
    (Event::Crash(342, &[]), Wanted::Crashed),
    (Event::Restart, Wanted::Restarted(&[0, 1, 2])),
    (Event::Ask(0, 3, 28_801), Wanted::Answer(&[(32_400, 1)])),
];

const RUNS: [&[(Event, Wanted)]; 5] = [&BODY, &GATE, &SHUT_GATE, &PUT, &LIVES];

// Goes over the runs.
fn check_runs(rt: &impl Abort, alloc: Global, sample: &Sample) -> Result<(), Fail> {
    empty_is_trusted();
    for (number, rows) in RUNS.iter().enumerate() {
        let steps = steps_of(alloc, sample, rows)?;
        let replies = replies_to(alloc, &sample.table, MemDisk::new(alloc), &steps)?;
        assert!(rt; are_wanted(&replies, rows), "run {number}");
    }
    Ok(())
}

#[test]
fn runs(rt: HostRuntime) -> Result<(), Fail> {
    let sample = Sample::new(&rt)?;
    check_runs(&rt, rt.alloc(), &sample)
}
