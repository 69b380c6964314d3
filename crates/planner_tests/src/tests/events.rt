//! Events and replies as tables write them.

ghost use Rattle.std.specs.Arc.{arc_value};
ghost use Rattle.disk_model.specs.MemDisk.{state_of};
ghost use Rattle.section_store.specs.Lasting.{IsTrusted};
ghost use Rattle.section_store.specs.Sections.{form_of};

use disk_model::MemDisk;
use planner_core::{Core, Reply, Step, run};
use sample_store::Sample;
use std::alloc::Global;
use std::sync::Arc;
use std::test::Fail;
use timetable::{Rides, StopId, Timetable};
use work_ledger::Outcome;

/// An event. A tree is handed in by its index in the sample.
#[derive(Clone, Copy)]
pub enum Event {
    Claim(u8),
    HandIn(u8, usize),
    GiveBack(u8, u32),
    Take,
    Ack(u32, Outcome),
    Stop,
    WriteBody(bool),
    SyncBody(bool),
    OpenGate(bool),
    SyncGate(bool),
    Publish,
    Ask(u32, u32, u32),
    Crash(u64, &'static [u8]),
    Restart,
}

/// What is replied; an answer by the arrivals and rides of its journeys.
#[derive(Clone, Copy)]
pub enum Wanted {
    Idle,
    Source(usize),
    Tree(usize),
    Done,
    OtherTimetable,
    NotYours,
    Full,
    Empty,
    Closed,
    Made,
    Failed,
    Receipt(usize),
    Published,
    NotStored,
    Answer(&'static [(u32, u8)]),
    Crashed,
    Restarted(&'static [usize]),
}

// A stop of the sample feed, or one past its five.
fn stop(number: u32) -> StopId {
    if number < 5 {
        StopId::new(number)
    } else {
        StopId::new(5)
    }
}

/// The step of an event.
pub fn step_of(alloc: Global, sample: &Sample, event: Event) -> Result<Step, Fail> {
    Ok(match event {
        Event::Claim(seat) => Step::Claim(seat),
        Event::HandIn(seat, index) => match sample.trees.get(index) {
            Some(tree) => Step::HandIn(seat, tree.try_copy(alloc)?),
            None => return Err(Fail::new("no such tree")),
        },
        Event::GiveBack(seat, source) => Step::GiveBack(seat, stop(source)),
        Event::Take => Step::Take,
        Event::Ack(source, outcome) => Step::Ack(stop(source), outcome),
        Event::Stop => Step::Stop,
        Event::WriteBody(fails) => Step::WriteBody(fails),
        Event::SyncBody(fails) => Step::SyncBody(fails),
        Event::OpenGate(fails) => Step::OpenGate(fails),
        Event::SyncGate(fails) => Step::SyncGate(fails),
        Event::Publish => Step::Publish,
        Event::Ask(from, to, depart) => Step::Ask(stop(from), stop(to), depart),
        Event::Crash(len, fill) => Step::Crash(len, fill.to_vec(alloc)?),
        Event::Restart => Step::Restart,
    })
}

fn is_ledgers(reply: work_ledger::Reply, wanted: Wanted) -> bool {
    match reply {
        work_ledger::Reply::Source(source) => {
            matches!(wanted, Wanted::Source(number) if source.number() == number)
        }
        work_ledger::Reply::Tree(source) => {
            matches!(wanted, Wanted::Tree(number) if source.number() == number)
        }
        work_ledger::Reply::Done => matches!(wanted, Wanted::Done),
        work_ledger::Reply::OtherTimetable => matches!(wanted, Wanted::OtherTimetable),
        work_ledger::Reply::NotYours => matches!(wanted, Wanted::NotYours),
        work_ledger::Reply::Full => matches!(wanted, Wanted::Full),
        work_ledger::Reply::Empty => matches!(wanted, Wanted::Empty),
        work_ledger::Reply::Closed => matches!(wanted, Wanted::Closed),
    }
}

fn is_wanted(reply: &Reply, wanted: Wanted) -> bool {
    match (reply, wanted) {
        (Reply::Ledger(reply), wanted) => is_ledgers(*reply, wanted),
        (Reply::Receipt(source), Wanted::Receipt(number)) => source.number() == number,
        (Reply::Answer(answer), Wanted::Answer(numbers)) => {
            answer.points().len() == numbers.len()
                && answer.points().iter().zip(numbers).all(|(point, numbers)| (
                    point.arrival(),
                    point.rides(),
                ) == *numbers)
        }
        (Reply::Restarted(list), Wanted::Restarted(numbers)) => {
            list.len() == numbers.len()
                && list
                    .iter()
                    .zip(numbers)
                    .all(|(source, number)| source.number() == *number)
        }
        (Reply::Idle, Wanted::Idle)
        | (Reply::Made, Wanted::Made)
        | (Reply::Failed, Wanted::Failed)
        | (Reply::Published, Wanted::Published)
        | (Reply::NotStored, Wanted::NotStored)
        | (Reply::Crashed, Wanted::Crashed) => true,
        _ => false,
    }
}

/// The steps of a table.
pub fn steps_of(
    alloc: Global,
    sample: &Sample,
    rows: &[(Event, Wanted)],
) -> Result<Vec<Step>, Fail> {
    let mut steps = Vec::new(alloc);
    for (event, _) in rows {
        steps.push(step_of(alloc, sample, *event)?)?;
    }
    Ok(steps)
}

/// What a core over that disk, for journeys of at most three rides, replies to the steps.
pub fn replies_to(
    alloc: Global,
    table: &Arc<Timetable>,
    disk: MemDisk,
    steps: &[Step],
) -> Result<Vec<Reply>, Fail>
    requires { IsTrusted (form_of (arc_value table.now) 3) (state_of disk) }
{
    let Ok(core) = Core::open(alloc, disk, table, Rides::new(3), 4) else {
        return Err(Fail::new("no core was opened"));
    };
    match run(alloc, core, steps) {
        Ok((_, replies)) => Ok(replies),
        Err(_) => Err(Fail::new("the run ended")),
    }
}

/// Whether the replies are those of a table.
pub fn are_wanted(replies: &[Reply], rows: &[(Event, Wanted)]) -> bool {
    replies.len() == rows.len()
        && replies
            .iter()
            .zip(rows)
            .all(|(reply, row)| is_wanted(reply, row.1))
}
