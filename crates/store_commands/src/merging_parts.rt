//! The stores of parts are put together.

ghost use Rattle.std.specs.Prelude.{◌↔◌, ◌<◌, ◌+◌, IfErr, MatchResult, length, take};
ghost use Rattle.store_commands.specs.Merged.{AreShelved, IsUnshelved, IsUntaken};
ghost use Rattle.store_commands.specs.Tasks.{IsPutTogether};
ghost use Rattle.store_files.specs.Disks.{disks_of};
ghost use Rattle.store_terms.specs.Stores.{OnlyFailing, form_over};

use crate::stores::OverStores;
use disk_model::Disk;
use faults::{Fault, in_part};
use feed_commands::{Found, found_report};
use part_shelf::PartShelf;
use program_system::System;
use std::alloc::Global;
use store_files::{Access, Disks, Ready, StoreFile, open_ready};
use store_merging::{path_of, put_together, told_of_part};

// Opens the file of a part, which has that index among the paths, and adds its store to those of the parts before it.
fn take_part<'a, S: System, D: Disks>(
    alloc: Global,
    on: &OverStores<'_, S, D>,
    file: &StoreFile<'a>,
    shelf: &mut PartShelf<D::Store>,
    paths: &'a [&'a str],
    number: usize,
) -> Result<(), Fault<'a>>
    requires { number < length paths.now }
    ensures { (before : AreShelved (disks_of (D.opens on.now.disks.now) D.Store.honest D.Store.state D.Store.failures)
        (form_over file.now.basis.now file.now.rides) (take number paths.now) shelf.old) → MatchResult result
        (λ _. AreShelved (disks_of (D.opens on.now.disks.now) D.Store.honest D.Store.state D.Store.failures)
        (form_over file.now.basis.now file.now.rides) (take (number + 1) paths.now) shelf.new)
        (IsUntaken (disks_of (D.opens on.now.disks.now) D.Store.honest D.Store.state D.Store.failures)
        file.now.basis.now file.now.rides paths.now before.disks number) }
{
    let StoreFile { basis, rides, .. } = *file;
    let path = path_of(paths, number);
    let part = StoreFile { path, basis, rides };
    match open_ready(alloc, on.disks, &part, Access::There) {
        Err((fault, _)) => Err(in_part(path, fault)),
        Ok(ready) => {
            let Ready { disk, is_new: _ } = ready;
            match shelf.add(disk) {
                Ok(()) => Ok(()),
                Err(refused) => Err(told_of_part(basis, paths, number, refused.0)),
            }
        }
    }
}

// The stores of the parts in the files of these paths, in their order.
fn shelve<'a, S: System, D: Disks>(
    alloc: Global,
    on: &OverStores<'_, S, D>,
    file: &StoreFile<'a>,
    paths: &'a [&'a str],
) -> Result<PartShelf<D::Store>, Fault<'a>>
    ensures { MatchResult result
        (AreShelved (disks_of (D.opens on.now.disks.now) D.Store.honest D.Store.state D.Store.failures)
        (form_over file.now.basis.now file.now.rides) paths.now)
        (IsUnshelved (disks_of (D.opens on.now.disks.now) D.Store.honest D.Store.state D.Store.failures)
        file.now.basis.now file.now.rides paths.now) }
{
    let mut shelf = PartShelf::new(alloc, file.basis.shared(), file.rides)?;
    for number in 0..paths.len() {
        take_part(alloc, on, file, &mut shelf, paths, number)?;
    }
    Ok(shelf)
}

/// Puts the stores of the parts in the files of these paths together in the disk of the file; the disk comes back. `shown` is whether the
/// words ask for reports of progress.
pub fn merge_on<'a, S: System, D: Disks>(
    alloc: Global,
    on: &OverStores<'_, S, D>,
    file: &StoreFile<'a>,
    disk: D::Store,
    paths: &'a [&'a str],
    shown: bool,
) -> (Result<Found<'a>, Fault<'a>>, D::Store)
    ensures found { D.Store.honest disk → IsPutTogether (disks_of (D.opens on.now.disks.now) D.Store.honest D.Store.state D.Store.failures)
        file.now.basis.now file.now.rides paths.now (D.Store.state disk) (D.Store.state result.1) result.0 }
    ensures device { IfErr result.0 (OnlyFailing (D.Store.failures disk) (D.Store.failures result.1)) }
    ensures honest { D.Store.honest disk ↔ D.Store.honest result.1 }
{
    match shelve(alloc, on, file, paths) {
        Err(fault) => (Err(fault), disk),
        Ok(shelf) => {
            let mut shelf = shelf;
            let StoreFile { basis, rides, .. } = *file;
            let mut meter = on.system.meter(shown);
            let (report, disk) = put_together(
                alloc, basis, rides, paths, &mut shelf, disk, &mut meter,
            );
            (found_report(report), disk)
        }
    }
}
