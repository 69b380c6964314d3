//! The trees of several stores are put together.

ghost use Rattle.std.specs.Prelude.{◌≡◌, ◌↔◌, List, IfErr, MatchResult, map};
ghost use Rattle.disk_model.specs.Disk.{Grew, State};
ghost use Rattle.pattern_tree.specs.Content.{Content};
ghost use Rattle.part_shelf.specs.Shelves.{Has, form_for};
ghost use Rattle.store_terms.specs.Stores.{form_over};
ghost use Rattle.store_merging.specs.Merges.{IsMerged, IsUnmerged, OnlyFailing, TellsOut};

use crate::counting::counted;
use crate::fault::UnmergedFault;
use answer_lines::Built;
use disk_model::Disk;
use feed_basis::Basis;
use merging::merge;
use part_shelf::PartShelf;
use progress::Progress;
use recovery::{Nobody, recover_to};
use section_store::going_laws::{goes_between, goes_on};
use section_store::laws::loses_nothing_in_turn;
use std::alloc::Global;
use timetable::Rides;

/// Puts the trees of the parts on the shelf into the file of the disk, by rising numbers of their stops. The file is recovered, and begun
/// if it is fresh; each stop that it has keeps its tree. It reports how many stops the file has then, and the ids of those that it lacks.
/// `progress` hears how many it has. The disk comes back. Of the parts nothing is written, and only one tree is in memory at a time.
///
/// Of honest disks: stopped before, within or after any call, the file stands for a front of the merged list that begins with what it had.
/// The same command goes on from there.
pub fn merge_parts<'a, D: Disk, E: Disk, P: Progress>(
    alloc: Global,
    basis: &'a Basis,
    rides: Rides,
    shelf: &mut PartShelf<D>,
    out: E,
    progress: &mut P,
) -> (Result<Built<'a>, UnmergedFault>, E)
    requires { form_for shelf.old ≡ form_over basis.now rides }
    ensures merged { (disks : List State) (all : List Content) → E.honest out
        → Has D.honest D.state shelf.old disks all
        → MatchResult result.0 (IsMerged basis.now rides all (E.state out) (E.state result.1))
        (IsUnmerged basis.now rides all (E.state out) (E.state result.1)) }
    ensures still { (disks : List State) (all : List Content)
        → Has D.honest D.state shelf.old disks all → Has D.honest D.state shelf.new disks all }
    ensures device { IfErr result.0 (λ fault. TellsOut fault → Grew (E.failures out) (E.failures result.1)) }
    ensures part_device { IfErr result.0
        (OnlyFailing (map D.failures shelf.old.disks.items) (map D.failures shelf.new.disks.items)) }
    ensures honest { E.honest out ↔ E.honest result.1 }
{
    goes_between();
    goes_on();
    loses_nothing_in_turn();
    let mut store = match recover_to(alloc, out, basis.shared(), rides, &mut Nobody) {
        Ok(store) => store,
        Err((fault, out)) => return (Err(UnmergedFault::Unopened(fault)), out),
    };
    let merged = merge(&mut store, shelf, progress);
    progress.ended();
    let told = match merged {
        Err(fault) => Err(UnmergedFault::Stopped(fault)),
        Ok(()) => match counted(alloc, basis, &store) {
            Ok(built) => Ok(built),
            Err(_) => Err(UnmergedFault::Untold),
        },
    };
    (told, store.into_disk())
}
