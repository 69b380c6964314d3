//! A core on a disk that is set to fail: what was set before counts for nothing.

ghost use Rattle.std.specs.Prelude.{◌≡◌};
ghost use Rattle.disk_model.specs.Disk.{empty_disk};
ghost use Rattle.disk_model.specs.MemDisk.{state_of};

use super::events::{Event, Wanted, are_wanted, replies_to, steps_of};
use disk_model::MemDisk;
use planner_core::Step;
use sample_store::Sample;
use section_store::laws::empty_is_trusted;
use std::alloc::Global;
use std::process::Abort;
use std::test::Fail;

// Only the call that the run itself sets to fail does so.
const PUT: [(Event, Wanted); 8] = [
    (Event::Claim(0), Wanted::Source(0)),
    (Event::HandIn(0, 0), Wanted::Done),
    (Event::Take, Wanted::Tree(0)),
    (Event::WriteBody(false), Wanted::Made),
    (Event::SyncBody(false), Wanted::Made),
    (Event::OpenGate(true), Wanted::Failed),
    (Event::Crash(272, &[0]), Wanted::Crashed),
    (Event::Restart, Wanted::Restarted(&[])),
];

// The one call of that number is set to fail, or all from it on.
fn told(alloc: Global, number: u64, all: bool) -> MemDisk
    ensures { state_of result ≡ empty_disk }
{
    let mut disk = MemDisk::new(alloc);
    if all {
        disk.stop_at(number);
    } else {
        disk.fail_at(number);
    }
    disk
}

// Goes over the calls of the opening and of the put, and some more.
fn check_calls(
    rt: &impl Abort,
    alloc: Global,
    sample: &Sample,
    steps: &[Step],
) -> Result<(), Fail> {
    empty_is_trusted();
    for number in 0..=20 {
        for all in [false, true] {
            let disk = told(alloc, number, all);
            let replies = replies_to(alloc, &sample.table, disk, steps)?;
            assert!(rt; are_wanted(&replies, &PUT), "call {number}");
        }
    }
    Ok(())
}

#[test]
fn what_a_disk_was_told(rt: HostRuntime) -> Result<(), Fail> {
    let sample = Sample::new(&rt)?;
    let steps = steps_of(rt.alloc(), &sample, &PUT)?;
    check_calls(&rt, rt.alloc(), &sample, &steps)
}
