//! Running a plan.

ghost use Rattle.std.specs.Prelude.{◌≡◌, ◌↔◌, IfSome, IsTrue, None};
ghost use Rattle.gtfs_tables.specs.Feed.{Feed, AreReaders};
ghost use Rattle.commands.specs.Left.{IsStoredCommand, all_left};
ghost use Rattle.commands.specs.Runs.{IsCommandRun, IsPlanRun};
ghost use Rattle.program_system.specs.World.{view_of};
ghost use Rattle.printing.specs.Finished.{streams_of};

use crate::idling::say_idle;
use crate::searching::{end_found, find};
use crate::so_far::SoFar;
use command_line::{Command, Plan, Search};
use feed_basis::{Basis, basis_of};
use feed_commands::{Tabling, run_matrix};
use gtfs_tables::Files;
use printing::{Streams, tell_fault, voice_of};
use program_system::System;
use std::alloc::Global;
use std::io::Write;
use timetable::Rides;

// Whether a command is one over a store.
fn is_stored(command: &Command<'_>) -> bool
    ensures { IsTrue result ↔ IsStoredCommand command.now }
{
    match command {
        Command::Find(Search::Stored { .. }) | Command::Serve { .. } => true,
        Command::Find(_) | Command::Matrix { .. } => false,
    }
}

// Does the command of a plan, which is none over a store, over the timetable.
fn run_here<S: System, O: Write + Drop, E: Write + Drop>(
    alloc: Global,
    system: &S,
    plan: &Plan<'_>,
    basis: &Basis,
    streams: Streams<O, E>,
) -> SoFar<O, E>
    requires { ¬ IsStoredCommand plan.now.command }
    ensures run { IsCommandRun (view_of (S.world system.now) S.Teller.telling) all_left None
        plan.now basis.now plan.now.command (streams_of streams.out streams.err)
        (streams_of result.streams.out result.streams.err) result.status result.left }
    ensures none { result.left ≡ None }
{
    let rides = Rides::new(plan.settings.rides);
    match &plan.command {
        Command::Find(search) => {
            let found = find(alloc, plan.style, basis, rides, search);
            end_found(alloc, &system.teller(), plan, basis, found, streams)
        }
        Command::Matrix {
            question,
            workers,
            progress,
        } => {
            let tabling = Tabling {
                basis,
                rides,
                question,
                workers: *workers,
                progress: *progress,
            };
            let mut streams = streams;
            let status = run_matrix(alloc, system, &voice_of(plan), &tabling, &mut streams);
            SoFar {
                status,
                left: None,
                streams,
            }
        }
        Command::Serve { .. } => unreachable!(),
    }
}

// Does the command of a plan over the timetable, or leaves it to do if it is one over a store.
fn run_command<S: System, O: Write + Drop, E: Write + Drop>(
    alloc: Global,
    system: &S,
    plan: &Plan<'_>,
    basis: Basis,
    streams: Streams<O, E>,
) -> SoFar<O, E>
    ensures run { IsCommandRun (view_of (S.world system.now) S.Teller.telling) all_left None
        plan.now basis plan.now.command (streams_of streams.out streams.err)
        (streams_of result.streams.out result.streams.err) result.status result.left }
    ensures left { IfSome result.left (λ _. IsStoredCommand plan.now.command) }
{
    if is_stored(&plan.command) {
        return SoFar {
            status: 0,
            left: Some(basis),
            streams,
        };
    }
    run_here(alloc, system, plan, &basis, streams)
}

/// Does the plan over the feed's files. A command over a store is left to do, if the feed and its days are without fault. Standard error
/// says if no trip runs on the covered days.
///
/// The status is 0 if it is done or left; 1 if the feed or its days are at fault, or the system gives no randomness for hash keys; 6 if the
/// question is; 7 if memory ran out; 8 if standard output refused a write.
pub fn run_plan<S: System, O: Write + Drop, E: Write + Drop>(
    alloc: Global,
    system: &S,
    plan: &Plan<'_>,
    files: Files<S::Reader>,
    streams: Streams<O, E>,
) -> SoFar<O, E>
    ensures run { (feed : Feed) → AreReaders S.Reader.remaining files feed
        → IsPlanRun (view_of (S.world system.now) S.Teller.telling) all_left None feed plan.now
        (streams_of streams.out streams.err) (streams_of result.streams.out result.streams.err) result.status result.left }
    ensures left { IfSome result.left (λ _. IsStoredCommand plan.now.command) }
{
    let mut streams = streams;
    let hash_keys = system.hash_keys();
    match basis_of(alloc, hash_keys, &plan.settings, plan.first, files) {
        Ok(basis) => {
            say_idle(&basis, &mut streams.err);
            run_command(alloc, system, plan, basis, streams)
        }
        Err(fault) => {
            let teller = system.teller();
            let voice = voice_of(plan);
            let status = tell_fault(alloc, &teller, &voice, &fault, &mut streams.err);
            SoFar {
                status,
                left: None,
                streams,
            }
        }
    }
}
