//! The faults of a merge, by the files of the parts.

ghost use Rattle.std.specs.Prelude.{◌≡◌, ◌↔◌, ◌<◌, [], List, IfErr, MatchResult, map, slice_index_or};
ghost use Rattle.disk_model.specs.Disk.{State};
ghost use Rattle.timetable.specs.Table.{stops_of};
ghost use Rattle.pattern_tree.specs.Content.{Content};
ghost use Rattle.part_shelf.specs.Shelves.{Has, form_for};
ghost use Rattle.store_terms.specs.Counts.{ReportsBuilt};
ghost use Rattle.store_terms.specs.Stores.{OnlyFailing, form_over};
ghost use Rattle.store_merging.specs.Merges.{IsMerged, OnlyFailing as PartsOnlyFailing};
ghost use Rattle.store_merging.specs.Telling.{IsOfMerge, IsOfPart, IsOfRefusal, IsOfShelf, IsPathOf, IsToldUnmerged};
ghost use Rattle.store_merging.specs.declared.fault.UnmergedFault.{UnmergedFault as UnmergedData};

use crate::fault::UnmergedFault;
use crate::merged::merge_parts;
use answer_lines::Report;
use disk_model::Disk;
use faults::{Fault, StoreFault, of_part};
use feed_basis::Basis;
use merging::{MergeFault, ShelfFault};
use part_shelf::{PartFault, PartShelf};
use progress::Progress;
use std::alloc::Global;
use store_faults::RecoverFault;
use store_migration::of_put;
use timetable::{Rides, StopId};

/// The path of that index; an empty one if there is none.
pub fn path_of<'a>(paths: &'a [&'a str], part: usize) -> &'a str
    ensures { IsPathOf paths.now part result }
{
    if part < paths.len() { paths[part] } else { "" }
}

// The id of a stop; an empty one if the timetable lacks it.
fn id_of<'a>(basis: &'a Basis, stop: StopId) -> &'a str
    ensures { stop < stops_of basis.now.timetable → result.now ≡ slice_index_or basis.now.names.stops stop [] }
{
    if stop.number() < basis.timetable().stops() {
        basis.names().stop(stop)
    } else {
        ""
    }
}

// A fault of the file of the part of that index.
fn of_file<'a>(paths: &'a [&'a str], part: usize, why: StoreFault) -> Fault<'a>
    ensures { IsOfPart paths.now part why result }
{
    Fault::Part(path_of(paths, part), why)
}

// Why a tree wasn't read.
fn of_shelf<'a>(paths: &'a [&'a str], why: ShelfFault) -> Fault<'a>
    ensures { IsOfShelf paths.now why result }
{
    match why {
        ShelfFault::Device(part) => of_file(paths, part, StoreFault::Recover(RecoverFault::Device)),
        ShelfFault::Memory => Fault::Memory,
        ShelfFault::Changed(part) => of_file(paths, part, StoreFault::Changed),
    }
}

/// Why the part of the index `number` isn't taken, as the program reports it. The paths are those of the parts, in their order.
pub fn told_of_part<'a>(
    basis: &'a Basis,
    paths: &'a [&'a str],
    number: usize,
    why: PartFault,
) -> Fault<'a>
    ensures { IsOfRefusal basis.now paths.now number why result }
{
    match why {
        PartFault::Store(why) => of_part(path_of(paths, number), why),
        PartFault::OtherTree { stop, part } => Fault::OtherTree {
            stop: id_of(basis, stop),
            part: path_of(paths, number),
            before: path_of(paths, part),
        },
        PartFault::Shelf(why) => of_shelf(paths, why),
    }
}

// Why the parts aren't put together.
fn of_merge<'a>(paths: &'a [&'a str], why: UnmergedFault) -> Fault<'a>
    ensures { IsOfMerge paths.now why result }
{
    match why {
        UnmergedFault::Unopened(why) => Fault::from(why),
        UnmergedFault::Stopped(MergeFault::Shelf(why)) => of_shelf(paths, why),
        UnmergedFault::Stopped(MergeFault::Put(why)) => of_put(why),
        UnmergedFault::Untold => Fault::Memory,
    }
}

/// Puts the trees of the parts on the shelf together in the file of the disk, as `merge_parts` does, and reports what comes of it, or the
/// fault by the files of the parts. The paths are those of the parts, in their order.
pub fn put_together<'a, D: Disk, E: Disk, P: Progress>(
    alloc: Global,
    basis: &'a Basis,
    rides: Rides,
    paths: &'a [&'a str],
    shelf: &mut PartShelf<D>,
    out: E,
    progress: &mut P,
) -> (Result<Report<'a>, Fault<'a>>, E)
    requires { form_for shelf.old ≡ form_over basis.now rides }
    ensures merged { (disks : List State) (all : List Content) → E.honest out
        → Has D.honest D.state shelf.old disks all
        → MatchResult result.0 (ReportsBuilt (IsMerged basis.now rides all (E.state out) (E.state result.1)))
        (IsToldUnmerged basis.now rides paths.now all (E.state out) (E.state result.1)) }
    ensures still { (disks : List State) (all : List Content)
        → Has D.honest D.state shelf.old disks all → Has D.honest D.state shelf.new disks all }
    ensures device { IfErr result.0 (OnlyFailing (E.failures out) (E.failures result.1)) }
    ensures part_device { IfErr result.0 (λ fault. (why : UnmergedData) × IsOfMerge paths.now why fault
        × PartsOnlyFailing (map D.failures shelf.old.disks.items) (map D.failures shelf.new.disks.items) why) }
    ensures honest { E.honest out ↔ E.honest result.1 }
{
    let (merged, out) = merge_parts(alloc, basis, rides, shelf, out, progress);
    match merged {
        Ok(built) => (Ok(Report::Built(built)), out),
        Err(why) => (Err(of_merge(paths, why)), out),
    }
}
