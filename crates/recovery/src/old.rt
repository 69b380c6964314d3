//! Reads a store of the first version.

ghost use Rattle.std.specs.Prelude.{◌≡◌, ◌↔◌, ◌⊎◌, IfOk, IfErr, MatchResult};
ghost use Rattle.std.specs.Arc.{arc_value};
ghost use Rattle.std.specs.List.{All};
ghost use Rattle.disk_model.specs.Image.{IsOutcome};
ghost use Rattle.disk_model.specs.Disk.{after_sync, Grew};
ghost use Rattle.disk_model.specs.Moments.{Leaves, LeavesOnly};
ghost use Rattle.section_store.specs.Lasting.{IsTrusted, IsExact};
ghost use Rattle.section_store.specs.Sections.{MayStand, Stands, old_form_of};
ghost use Rattle.recovery.specs.Recovery.{IsOutside, StandsForNoList, CauseOf};

use crate::kept::{Kept, Wanted};
use crate::opening::look;
use disk_model::Disk;
use pattern_tree::PatternTree;
use section_store::Form;
use section_store::laws::trusted_trees;
use std::alloc::Global;
use std::sync::Arc;
use store_faults::RecoverFault;
use timetable::{Rides, Timetable};

/// Reads a store of the first version, of that timetable and of journeys of at most `rides` rides: its trees in storing order, or none if
/// the file is fresh. What the disk has is synced first, and nothing is written. So whatever a crash leaves then or later, one might have
/// left on entry. As soon as the trees are read, each crash leaves a file that stands for them. The disk comes back with each fault.
pub fn read_v1<D: Disk>(
    alloc: Global,
    disk: D,
    table: &Arc<Timetable>,
    rides: Rides,
) -> Result<(D, Vec<PatternTree>), (RecoverFault, D)>
    ensures stands { D.honest disk
        → IfOk result (λ r. Stands (old_form_of (arc_value table.now) rides) (D.state disk).read r.1.items) }
    ensures settled { D.honest disk
        → IfOk result (λ r. Leaves (λ bytes. Stands (old_form_of (arc_value table.now) rides) bytes r.1.items) (D.state r.0).now) }
    ensures may { IfOk result (λ r. All (MayStand (old_form_of (arc_value table.now) rides)) r.1.items) }
    ensures exact { D.honest disk → IsTrusted (old_form_of (arc_value table.now) rides) (D.state disk)
        → IfOk result (λ r. All (IsExact (old_form_of (arc_value table.now) rides)) r.1.items) }
    ensures refused { D.honest disk → IfErr result
        (λ e. IsOutside e.0 ⊎ StandsForNoList (old_form_of (arc_value table.now) rides) (D.state disk).read) }
    ensures cause { D.honest disk → IfErr result (λ e. CauseOf (old_form_of (arc_value table.now) rides) (D.state disk).read e.0) }
    ensures device { MatchResult result (λ r. D.failures r.0 ≡ D.failures disk)
        (λ e. e.0 ≡ RecoverFault.Device → Grew (D.failures disk) (D.failures e.1)) }
    ensures outcomes { D.honest disk → MatchResult result
        (λ r. LeavesOnly (D.state disk) (D.state r.0) (IsOutcome (D.state disk).now))
        (λ e. LeavesOnly (D.state disk) (D.state e.1) (IsOutcome (D.state disk).now)) }
    ensures written { D.honest disk → MatchResult result
        (λ r. D.state r.0 ≡ after_sync (D.state disk))
        (λ e. (D.state e.1 ≡ D.state disk) ⊎ (D.state e.1 ≡ after_sync (D.state disk))) }
    ensures honest { MatchResult result (λ r. D.honest disk ↔ D.honest r.0) (λ e. D.honest disk ↔ D.honest e.1) }
{
    trusted_trees();
    let Ok(kept) = Arc::try_clone(table) else {
        return Err((RecoverFault::Memory, disk));
    };
    let form = Form::old(kept, rides);
    let mut disk = disk;
    let mut kept = Kept {
        alloc,
        wanted: Wanted::All,
        trees: Vec::new(alloc),
    };
    match look(alloc, &mut kept, &mut disk, &form) {
        Err(fault) => Err((fault, disk)),
        Ok(_) => Ok((disk, kept.trees)),
    }
}
