//! What is done over the file of a store. It is opened in one place.

ghost use Rattle.std.specs.Prelude.{◌≡◌, ◌↔◌, IfErr};
ghost use Rattle.store_commands.specs.Tasks.{IsAskDone, IsAuditDone, IsMigrated, IsTaskDone};
ghost use Rattle.store_commands.specs.Stored.{IsOverStore, told_for};
ghost use Rattle.store_files.specs.Disks.{disks_of};
ghost use Rattle.store_terms.specs.Stores.{OnlyFailing};

use crate::merging_parts::merge_on;
use crate::stores::OverStores;
use command_line::Task;
use disk_model::Disk;
use faults::{Fault, Side, in_migration};
use feed_commands::{Found, found_answer, found_connections, found_report};
use option_words::{Audited, Style};
use printing::tells_legs;
use program_system::System;
use questions::Question;
use std::alloc::Global;
use std::io::Write;
use store_answers::{ask_stored, ask_stored_within, audit, audit_all, list};
use store_building::{Building, build};
use store_files::{Access, Disks, Ready, StoreFile, open_ready, say_new};
use store_migration::take_over;
use streams::Stream;
use told_connections::times_of;

// Answers a question from the trees that the disk of the file has, or with the connections if it asks for them; the disk comes back.
fn ask_on<'a, D: Disk>(
    alloc: Global,
    file: &StoreFile<'a>,
    disk: D,
    question: &Question<'a>,
    legs: bool,
) -> (Result<Found<'a>, Fault<'a>>, D)
    ensures found { D.honest disk → IsAskDone file.now.basis.now file.now.rides question.now legs question.now.within
        (D.state disk) (D.state result.1) result.0 }
    ensures device { IfErr result.0 (OnlyFailing (D.failures disk) (D.failures result.1)) }
    ensures honest { D.honest disk ↔ D.honest result.1 }
{
    let StoreFile { basis, rides, .. } = *file;
    match question.within {
        None => {
            let moment = basis.moment(question.day, question.seconds);
            let (answer, disk) = ask_stored(alloc, basis, rides, disk, question, moment, legs);
            (found_answer(question, answer), disk)
        }
        Some(within) => {
            let times = times_of(basis, question, within);
            let (connections, disk) = ask_stored_within(
                alloc, basis, rides, disk, question, times, legs,
            );
            (found_connections(question, connections), disk)
        }
    }
}

// Audits the tree of a stop, or all trees, that the disk of the file has; the disk comes back.
fn audit_on<'a, S: System, D: Disks>(
    alloc: Global,
    on: &OverStores<'_, S, D>,
    file: &StoreFile<'a>,
    disk: D::Store,
    whose: &Audited<'a>,
) -> (Result<Found<'a>, Fault<'a>>, D::Store)
    ensures found { D.Store.honest disk
        → IsAuditDone file.now.basis.now file.now.rides whose.now (D.Store.state disk) (D.Store.state result.1) result.0 }
    ensures device { IfErr result.0 (OnlyFailing (D.Store.failures disk) (D.Store.failures result.1)) }
    ensures honest { D.Store.honest disk ↔ D.Store.honest result.1 }
{
    let StoreFile { basis, rides, .. } = *file;
    match whose {
        Audited::Stop(from) => {
            let (report, disk) = audit(alloc, basis, rides, disk, from);
            (found_report(report), disk)
        }
        Audited::All { workers, progress } => {
            let mut meter = on.system.meter(*progress);
            let threads = on.system.threads();
            let (report, disk) = audit_all(
                alloc, threads, basis, rides, *workers, disk, &mut meter,
            );
            (found_report(report), disk)
        }
    }
}

// Takes the store of the version before, in the file of that path, over to the disk of the file; the disk comes back. `shown` is whether
// the words ask for reports of progress.
fn migrate_on<'a, S: System, D: Disks>(
    alloc: Global,
    on: &OverStores<'_, S, D>,
    file: &StoreFile<'a>,
    disk: D::Store,
    old: &'a str,
    shown: bool,
) -> (Result<Found<'a>, Fault<'a>>, D::Store)
    ensures found { D.Store.honest disk → IsMigrated (disks_of (D.opens on.now.disks.now) D.Store.honest D.Store.state D.Store.failures)
        file.now.basis.now file.now.rides old.now (D.Store.state disk) (D.Store.state result.1) result.0 }
    ensures device { IfErr result.0 (OnlyFailing (D.Store.failures disk) (D.Store.failures result.1)) }
    ensures honest { D.Store.honest disk ↔ D.Store.honest result.1 }
{
    let StoreFile { basis, rides, .. } = *file;
    let before = StoreFile {
        path: old,
        basis,
        rides,
    };
    match open_ready(alloc, on.disks, &before, Access::There) {
        Err((fault, _)) => (Err(in_migration(Side::Old, fault)), disk),
        Ok(ready) => {
            let Ready {
                disk: source,
                is_new: _,
            } = ready;
            let mut meter = on.system.meter(shown);
            let (report, _, disk) = take_over(alloc, basis, rides, source, disk, &mut meter);
            (found_report(report), disk)
        }
    }
}

// A fault of the file that is opened, as the task reports it: of the two files of a migration, it is the new one.
fn told_for<'a>(task: &Task<'_>, fault: Fault<'a>) -> Fault<'a>
    ensures { result ≡ told_for task.now fault.entry }
{
    match task {
        Task::Migrate { .. } => in_migration(Side::New, fault),
        _ => fault,
    }
}

// Does the task over the disk of the file, which comes back.
fn on_disk<'a, S: System, D: Disks>(
    alloc: Global,
    on: &OverStores<'_, S, D>,
    style: Style,
    file: &StoreFile<'a>,
    disk: D::Store,
    task: &Task<'a>,
) -> (Result<Found<'a>, Fault<'a>>, D::Store)
    ensures found { D.Store.honest disk → IsTaskDone (disks_of (D.opens on.now.disks.now) D.Store.honest D.Store.state D.Store.failures)
        style file.now.basis.now file.now.rides task.now (D.Store.state disk) (D.Store.state result.1) result.0 }
    ensures device { IfErr result.0 (OnlyFailing (D.Store.failures disk) (D.Store.failures result.1)) }
    ensures honest { D.Store.honest disk ↔ D.Store.honest result.1 }
{
    let StoreFile { basis, rides, .. } = *file;
    match task {
        Task::Ask { question, legs } => {
            let legs = tells_legs(style, *legs);
            ask_on(alloc, file, disk, question, legs)
        }
        Task::List => {
            let (report, disk) = list(alloc, basis, rides, disk);
            (found_report(report), disk)
        }
        Task::Audit { whose } => audit_on(alloc, on, file, disk, whose),
        Task::Build {
            workers,
            progress,
            part,
        } => {
            let mut meter = on.system.meter(*progress);
            let building = Building {
                basis,
                rides,
                workers: *workers,
            };
            let (report, disk) = build(
                alloc,
                on.system.threads(),
                &building,
                *part,
                disk,
                &mut meter,
            );
            (found_report(report), disk)
        }
        Task::Migrate { old, progress } => migrate_on(alloc, on, file, disk, old, *progress),
        Task::Merge { parts, progress } => merge_on(alloc, on, file, disk, parts, *progress),
    }
}

/// Opens the file and does the task over its disk, which comes back if there is one. Standard error says if a new store is begun, but not
/// to a build.
pub fn over_store<'a, S: System, D: Disks, E: Write + Drop>(
    alloc: Global,
    on: &OverStores<'_, S, D>,
    style: Style,
    file: &StoreFile<'a>,
    task: &Task<'a>,
    err: &mut Stream<E>,
) -> (Result<Found<'a>, Fault<'a>>, Option<D::Store>)
    ensures { IsOverStore (disks_of (D.opens on.now.disks.now) D.Store.honest D.Store.state D.Store.failures)
        style file.now.basis.now file.now.rides file.now.path.now task.now result.0 result.1 err.old err.new }
{
    let reads = task.only_reads();
    match open_ready(alloc, on.disks, file, Access::Made { only_reads: reads }) {
        Err((fault, disk)) => (Err(told_for(task, fault)), disk),
        Ok(ready) => {
            let Ready { disk, is_new } = ready;
            say_new(file.path, reads && is_new, err);
            let (found, disk) = on_disk(alloc, on, style, file, disk, task);
            (found, Some(disk))
        }
    }
}
