//! The trees of a store of the version before are taken over.

ghost use Rattle.std.specs.Prelude.{◌≡◌, ◌↔◌, MatchResult, IfErr};
ghost use Rattle.disk_model.specs.Disk.{Grew};
ghost use Rattle.disk_model.specs.Image.{IsOutcome};
ghost use Rattle.disk_model.specs.Moments.{LeavesOnly};
ghost use Rattle.store_migration.specs.Migrations.{IsTakenOver, IsUntaken, TellsOldDevice, of_migration, of_put};
ghost use Rattle.store_terms.specs.Stores.{OnlyFailing};

use answer_lines::Report;
use disk_model::Disk;
use faults::{Fault, Side, of_migrated};
use feed_basis::Basis;
use migration::{MigrateFault, Migrated, migrate};
use progress::Progress;
use section_store::PutFault;
use std::alloc::Global;
use timetable::Rides;

/// Why a tree wasn't put, as the program reports it. Of these only three come: the others say that the new file isn't the one that was
/// compared.
pub fn of_put<'a>(fault: PutFault) -> Fault<'a>
    ensures { result ≡ of_put fault }
{
    match fault {
        PutFault::Device => Fault::PutFailed,
        PutFault::TooLarge => Fault::FileTooLarge,
        PutFault::Memory => Fault::Memory,
        PutFault::AlreadyStored | PutFault::Failed | PutFault::OtherTimetable => Fault::OtherList,
    }
}

// Why a store wasn't taken over, as the program reports it.
fn of_migration<'a>(fault: MigrateFault) -> Fault<'a>
    ensures { result ≡ of_migration fault }
{
    match fault {
        MigrateFault::Old(fault) => of_migrated(Side::Old, fault),
        MigrateFault::New(fault) => of_migrated(Side::New, fault),
        MigrateFault::OtherList => Fault::OtherList,
        MigrateFault::Put(fault) => of_put(fault),
    }
}

/// Stores the trees of the old disk's file, which is of the version before, in the file of the new one, in the same order. That file is
/// recovered, or begun if it is fresh; its trees must be the first ones of the old list. The report says how many there are, and `progress`
/// hears how many are taken over. Both disks come back.
///
/// Of honest disks: nothing is done to the old one but a sync. Stopped before, within or after any call, the new file stands for a
/// beginning of the old list; the same command goes on from there.
pub fn take_over<'a, D: Disk, E: Disk, P: Progress>(
    alloc: Global,
    basis: &'a Basis,
    rides: Rides,
    old: D,
    new: E,
    progress: &mut P,
) -> (Result<Report<'a>, Fault<'a>>, D, E)
    ensures taken { D.honest old → E.honest new → MatchResult result.0
        (IsTakenOver basis.now rides (D.state old) (D.state result.1) (E.state new) (E.state result.2))
        (IsUntaken basis.now rides (D.state old) (D.state result.1) (E.state new) (E.state result.2)) }
    ensures left { D.honest old → LeavesOnly (D.state old) (D.state result.1) (IsOutcome (D.state old).now) }
    ensures device { IfErr result.0 (OnlyFailing (E.failures new) (E.failures result.2)) }
    ensures old_device { IfErr result.0 (λ fault. TellsOldDevice fault → Grew (D.failures old) (D.failures result.1)) }
    ensures honest { D.honest old ↔ D.honest result.1 }
    ensures new_honest { E.honest new ↔ E.honest result.2 }
{
    let migrated = migrate(alloc, old, new, basis.shared(), rides, progress);
    progress.ended();
    match migrated {
        Ok(migrated) => {
            let Migrated { source, store } = migrated;
            let count = store.stored().len();
            (Ok(Report::Migrated { count }), source, store.into_disk())
        }
        Err((fault, old, new)) => (Err(of_migration(fault)), old, new),
    }
}
