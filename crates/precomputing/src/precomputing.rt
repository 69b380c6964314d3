//! Builds the trees that a store lacks.

ghost use Rattle.std.specs.Prelude.{◌≡◌, ◌<◌, ◌≤◌, [], IfOk, length, take, vec_capacity};
ghost use Rattle.stop_parts.specs.Parts.{whole};
ghost use Rattle.section_store.specs.Sources.{IsSetOf};
ghost use Rattle.tree_crew.specs.Flushed.{ShowsTo};
ghost use Rattle.precomputing.specs.Prepared.{IsPrepared};
ghost use Rattle.precomputing.specs.Outcome.{IsDoneAtOnce, IsLeft, IsPrecomputed};

use crate::missing::{count_in, has_each, mark, missing_stops, settled_stops};
use crate::outcome::Outcome;
use disk_model::Disk;
use flusher::FlushEnd;
use planner::{Desk, Planner};
use progress::{Done, Progress, Silent};
use section_store::going_laws::goes_on;
use section_store::{Step, StopSet};
use std::alloc::{AllocError, Global};
use std::marker::Brand;
use std::sync::Wait;
use std::thread::Threads;
use stop_parts::Part;
use timetable::StopId;
use tree_crew::{Audience, Counted, Crew, run_over};
use tree_workers::{Gate, Halt};
use work_ledger::Ledger;

// How many finished trees wait to be stored at most.
const ROOM: usize = 64;

// What is made before anything is started: the ledger, which gives out stops of the part, the set of the stored stops, and room for those
// that lack a tree at the end. And how many stops there are, and how many trees are stored before.
#[derive(Drop)]
struct Prepared {
    ledger: Ledger,
    set: StopSet,
    room: Vec<StopId>,
    stops: usize,
    before: usize,
}

// Makes the ledger, the set and the room, before any thread starts. In the ledger the stops of other parts count as stored.
fn prepare<D: Disk>(
    alloc: Global,
    planner: &Planner,
    desk: &Desk<D>,
    part: Part,
) -> Result<Prepared, AllocError>
    requires own { desk.now.form ≡ planner.now.form }
    ensures { IfOk result (IsPrepared desk.now) }
{
    let stops = planner.network().timetable().stops();
    let stored = desk.stored();
    let room = Vec::with_capacity(alloc, stops)?;
    let set = StopSet::of(alloc, stops, stored)?;
    let settled = settled_stops(alloc, stored, part, stops)?;
    let network = planner.network();
    let ledger = Ledger::new(alloc, network.shared(), planner.k(), &settled, ROOM)?;
    Ok(Prepared {
        ledger,
        set,
        room,
        stops,
        before: stored.len(),
    })
}

// What is left of the part. The set has the stops whose trees were stored before.
fn left(
    set: StopSet,
    stored: &[StopId],
    before: usize,
    part: Part,
    stops: usize,
    room: Vec<StopId>,
) -> Outcome
    requires before { before ≤ length stored.now }
    requires set { IsSetOf stops set (take before stored.now) }
    requires few { stops ≤ 1_000_000 }
    requires bare { room.items ≡ [] }
    requires room { stops ≤ vec_capacity room }
    ensures { IsLeft part stops stored.now result }
{
    let mut set = set;
    mark(&mut set, stored, before);
    let missing = missing_stops(&set, part, stops, room);
    if missing.len() == 0 {
        return Outcome::Done;
    }
    Outcome::Partial(missing)
}

// Builds the trees that the desk's store lacks, if all is prepared.
fn build<D: Disk + Drop, R: Threads + Wait + Sync, G: Gate + Sync, P: Progress>(
    alloc: Global,
    rt: &R,
    desk: Desk<D>,
    planner: &Planner,
    crew: &Crew<'_, G>,
    progress: &mut P,
    prepared: Prepared,
) -> (Desk<D>, Outcome)
    requires own { desk.form ≡ planner.now.form }
    requires ready { desk.next ≡ Step.WriteBody }
    requires prepared { IsPrepared desk prepared }
    ensures precomputed { IsPrecomputed crew.now.part D.honest D.state D.failures desk result.0 result.1 }
    ensures shown { ShowsTo crew.now.audience desk.board result.0.board }
{
    let Prepared {
        ledger,
        set,
        room,
        stops,
        before,
    } = prepared;
    let (desk, end) = run_over::<Brand, D, R, G, P>(
        rt, alloc, planner, ledger, crew, progress, desk,
    );
    match end {
        None => (desk, Outcome::NoMemory),
        Some(FlushEnd::DeviceFailed) => (desk, Outcome::DeviceFailed),
        Some(FlushEnd::Drained) => {
            let outcome = left(set, desk.stored(), before, crew.part, stops, room);
            (desk, outcome)
        }
    }
}

/// Builds the trees of the crew's part of the stops that the desk's store lacks, in the crew's threads, while the calling thread stores
/// them. The crew's audience sees each tree once it is stored. All threads have ended when this returns. The thread that builds a tree
/// calls the gate. The calling thread gives `progress` the number of the part's stored stops as it begins, and after each put. Once the
/// flag is set no source is claimed any more, and what is in hand ends.
///
/// If each stop of the part has its tree, nothing is started, and no memory is taken. A source whose tree is too large, or for which memory
/// is refused, stays missing. A thread that can't be made is left out. After `DeviceFailed` the store has to be opened again.
///
/// Of an honest disk: at each moment since, each outcome of a crash stands for a front of the new list that holds the old one. If the
/// device failed, one source more may be there. What each outcome held each one holds, and a trusted disk stays trusted.
pub fn precompute_telling<D: Disk + Drop, R: Threads + Wait + Sync, G: Gate + Sync, P: Progress>(
    alloc: Global,
    rt: &R,
    desk: Desk<D>,
    planner: &Planner,
    crew: &Crew<'_, G>,
    progress: &mut P,
) -> (Desk<D>, Outcome)
    requires own { desk.form ≡ planner.now.form }
    requires ready { desk.next ≡ Step.WriteBody }
    ensures precomputed { IsPrecomputed crew.now.part D.honest D.state D.failures desk result.0 result.1 }
    ensures at_once { IsDoneAtOnce crew.now.part desk result.0 result.1 }
    ensures shown { ShowsTo crew.now.audience desk.board result.0.board }
{
    goes_on();
    let stops = planner.network().timetable().stops();
    let before = desk.stored().len();
    let of_part = count_in(crew.part, desk.stored());
    let mut progress = Counted {
        progress,
        others: before.saturating_sub(of_part),
        of: crew.part.among(stops),
    };
    progress.reached(Done::Stored, before, stops);
    if has_each(&desk, crew.part, stops) {
        return (desk, Outcome::Done);
    }
    let Ok(prepared) = prepare(alloc, planner, &desk, crew.part) else {
        return (desk, Outcome::NoMemory);
    };
    build(alloc, rt, desk, planner, crew, &mut progress, prepared)
}

/// The same of all stops, with `workers` workers, but how many trees are stored is reported to nobody.
pub fn precompute_until<D: Disk + Drop, R: Threads + Wait + Sync, G: Gate + Sync>(
    alloc: Global,
    rt: &R,
    desk: Desk<D>,
    planner: &Planner,
    workers: usize,
    gate: &G,
    stop: &Halt,
) -> (Desk<D>, Outcome)
    requires own { desk.form ≡ planner.now.form }
    requires workers { (0 < workers) × (workers ≤ 64) }
    requires ready { desk.next ≡ Step.WriteBody }
    ensures precomputed { IsPrecomputed whole D.honest D.state D.failures desk result.0 result.1 }
    ensures at_once { IsDoneAtOnce whole desk result.0 result.1 }
{
    let crew = Crew {
        workers,
        part: Part::whole(),
        gate,
        stop,
        audience: Audience::Readers,
    };
    precompute_telling(alloc, rt, desk, planner, &crew, &mut Silent)
}

/// The same, without a flag either.
pub fn precompute<D: Disk + Drop, R: Threads + Wait + Sync, G: Gate + Sync>(
    alloc: Global,
    rt: &R,
    desk: Desk<D>,
    planner: &Planner,
    workers: usize,
    gate: &G,
) -> (Desk<D>, Outcome)
    requires own { desk.form ≡ planner.now.form }
    requires workers { (0 < workers) × (workers ≤ 64) }
    requires ready { desk.next ≡ Step.WriteBody }
    ensures precomputed { IsPrecomputed whole D.honest D.state D.failures desk result.0 result.1 }
    ensures at_once { IsDoneAtOnce whole desk result.0 result.1 }
{
    let stop = Halt::new();
    precompute_until(alloc, rt, desk, planner, workers, gate, &stop)
}
