//! The planner as one machine, on a disk in memory.

use crate::seen::Seen;
use disk_model::MemDisk;
use planner_core::{Core, Reply, Step, run};
use sample_store::Sample;
use section_store::laws::empty_is_trusted;
use std::alloc::Global;
use std::test::Fail;
use timetable::{Rides, StopId};
use work_ledger::Outcome;

// A is claimed, built, put, shown, acknowledged and asked for.
fn steps_of_a(alloc: Global, sample: &Sample) -> Result<Vec<Step>, Fail> {
    let a = StopId::new(0);
    let tree = sample.trees.first().ok_or("no tree of A")?;
    let tree = tree.try_copy(alloc)?;
    let steps = [
        Step::Claim(0),
        Step::HandIn(0, tree),
        Step::Take,
        Step::WriteBody(false),
        Step::SyncBody(false),
        Step::OpenGate(false),
        Step::SyncGate(false),
        Step::Publish,
        Step::Ack(a, Outcome::Keep),
        Step::Ask(a, StopId::new(3), 28_800),
    ];
    Ok(Vec::from_array(alloc, steps)?)
}

// Whether the put got its receipt, the tree was shown, and the answer has two journeys.
fn are_right(replies: &[Reply]) -> bool {
    match replies {
        [
            ..,
            Reply::Receipt(_),
            Reply::Published,
            Reply::Ledger(_),
            Reply::Answer(answer),
        ] => { replies.len() == 10 && answer.points().len() == 2 }
        _ => false,
    }
}

// Whether a run on an empty disk is right; none if it ended for want of memory.
fn run_once(alloc: Global, sample: &Sample, steps: &[Step]) -> Result<Option<bool>, Fail> {
    empty_is_trusted();
    let empty = MemDisk::new(alloc);
    let Ok(core) = Core::open(alloc, empty, &sample.table, Rides::new(3), 4) else {
        return Err(Fail::new("no core was opened"));
    };
    match run(alloc, core, steps) {
        Ok((_core, replies)) => Ok(Some(are_right(&replies))),
        Err(_) => Ok(None),
    }
}

/// A whole put by steps. If memory is refused, another run must be right.
pub fn put_by_steps(alloc: Global, sample: &Sample) -> Result<Seen, Fail> {
    let steps = steps_of_a(alloc, sample)?;
    if let Some(is_right) = run_once(alloc, sample, &steps)? {
        return Ok(Seen::right_if(is_right, "a reply"));
    }
    let again = run_once(alloc, sample, &steps)?;
    Ok(Seen::again("Memory", "the same steps", again == Some(true)))
}
