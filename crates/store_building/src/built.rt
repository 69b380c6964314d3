//! The building of the trees that are missing.

ghost use Rattle.std.specs.Prelude.{◌≡◌, ◌↔◌, MatchResult, IfOk, IfErr, OnOk};
ghost use Rattle.precomputing.specs.Missing.{missing_of};
ghost use Rattle.timetable.specs.Table.{stops_of};
ghost use Rattle.store_building.specs.Builds.{CountsLeft, IsBuilt, IsEndOf, IsReportOf, IsUnbuilt, IsWhole};
ghost use Rattle.store_terms.specs.Counts.{CountsStored, ReportsBuilt};
ghost use Rattle.store_terms.specs.Stores.{OnlyFailing};

use crate::opening::open_unshown;
use answer_lines::{Built, Report};
use disk_model::Disk;
use faults::Fault;
use feed_basis::Basis;
use option_words::Workers;
use precomputing::{Audience, Crew, Free, Halt, Outcome, count_in, precompute_telling};
use progress::Progress;
use recovery::laws::opening_goes_on;
use section_store::going_laws::goes_on;
use section_store::laws::loses_nothing_in_turn;
use std::alloc::{AllocError, Global};
use std::sync::Wait;
use std::thread::Threads;
use stop_parts::Part;
use store_terms::ids;
use timetable::{Rides, StopId};

/// Which trees are built, and by how many workers: those of the basis's timetable, for journeys of at most `rides` rides.
#[derive(Clone, Copy)]
pub struct Building<'a> {
    pub basis: &'a Basis,
    pub rides: Rides,
    pub workers: Workers,
}

// What is said of a part if these stops are stored, and those of the part are missing.
fn counted<'a>(
    alloc: Global,
    basis: &'a Basis,
    part: Part,
    stored: &[StopId],
    missing: &[StopId],
) -> Result<Built<'a>, AllocError>
    requires { missing.now ≡ missing_of part (stops_of basis.now.timetable) stored.now }
    ensures { IfOk result (CountsStored basis.now part stored.now) }
{
    Ok(Built {
        stored: count_in(part, stored),
        of: part.among(basis.timetable().stops()),
        missing: ids(alloc, basis, missing)?,
    })
}

/// What came of the build of a part, as the program reports it.
pub fn told<'a>(
    alloc: Global,
    basis: &'a Basis,
    part: Part,
    stored: &[StopId],
    outcome: &Outcome,
) -> Result<Built<'a>, Fault<'a>>
    requires { CountsLeft part (stops_of basis.now.timetable) stored.now outcome.now }
    ensures whole { OnOk result (IsWhole outcome.now) }
    ensures counts { IfOk result (CountsStored basis.now part stored.now) }
    ensures ended { IfErr result (IsEndOf outcome.now) }
{
    let missing: &[StopId] = match outcome {
        Outcome::Done => &[],
        Outcome::Partial(missing) => missing.as_slice(),
        Outcome::DeviceFailed => return Err(Fault::PutFailed),
        Outcome::NoMemory => return Err(Fault::Memory),
    };
    match counted(alloc, basis, part, stored, missing) {
        Ok(built) => Ok(built),
        Err(_) => Err(Fault::Memory),
    }
}

// What came of a build as a report, or its fault.
fn report_of<'a>(built: Result<Built<'a>, Fault<'a>>) -> Result<Report<'a>, Fault<'a>>
    ensures { IsReportOf built.entry result }
{
    match built {
        Ok(built) => Ok(Report::Built(built)),
        Err(fault) => Err(fault),
    }
}

/// Stores the trees of a part of the stops that the file of the disk lacks: workers build them in threads, and the calling thread stores
/// each as it is handed in. It reports how many of the part the file has then, and the part's stops without one. The file is recovered, and
/// a fresh one begun. No tree is kept in memory once it is stored. The build reports to `progress` how far it is. The disk comes back. A
/// stop is left without its tree if that is too large, or memory is refused for it.
///
/// Of an honest disk, whatever the order of the workers' steps: stopped before, within or after any call, the file stands for a list that
/// begins with the old one, and has each tree whose storing was done. The same build again goes on from there.
pub fn build<'a, D: Disk + Drop, T: Threads + Wait + Sync, P: Progress>(
    alloc: Global,
    rt: &T,
    building: &Building<'a>,
    part: Part,
    disk: D,
    progress: &mut P,
) -> (Result<Report<'a>, Fault<'a>>, D)
    ensures built { D.honest disk → MatchResult result.0
        (ReportsBuilt (IsBuilt building.now.basis.now part building.now.rides (D.state disk) (D.state result.1)))
        (IsUnbuilt building.now.basis.now part building.now.rides (D.state disk) (D.state result.1)) }
    ensures device { IfErr result.0 (OnlyFailing (D.failures disk) (D.failures result.1)) }
    ensures honest { D.honest disk ↔ D.honest result.1 }
{
    opening_goes_on();
    goes_on();
    loses_nothing_in_turn();
    let Building {
        basis,
        rides,
        workers,
    } = *building;
    let (planner, desk) = match open_unshown(alloc, rt, basis, rides, disk) {
        Ok(opened) => opened,
        Err((fault, disk)) => return (Err(Fault::from(fault)), disk),
    };
    let stop = Halt::new();
    let crew = Crew {
        workers: usize::from(workers.number),
        part,
        gate: &Free,
        stop: &stop,
        audience: Audience::Nobody,
    };
    let (desk, outcome) = precompute_telling(alloc, rt, desk, &planner, &crew, progress);
    progress.ended();
    let built = told(alloc, basis, part, desk.stored(), &outcome);
    (report_of(built), desk.into_disk(rt))
}
