//! Opens the file of a store.

ghost use Rattle.std.specs.Prelude.{◌≡◌, ◌↔◌, ◌⊎◌, ◌<◌, IfOk, IfErr, MatchResult};
ghost use Rattle.std.specs.Arc.{arc_value};
ghost use Rattle.std.specs.List.{All};
ghost use Rattle.disk_model.specs.Disk.{after_sync, Grew};
ghost use Rattle.timetable.specs.Table.{stops_of};
ghost use Rattle.section_store.specs.Lasting.{IsTrusted, IsExact};
ghost use Rattle.section_store.specs.Sections.{IsFresh, Stands, form_of, sources};
ghost use Rattle.section_store.specs.Store.{Holds};
ghost use Rattle.recovery.specs.Excerpts.{IsExcerpt};
ghost use Rattle.recovery.specs.Giving.{IsGiven};
ghost use Rattle.recovery.specs.Opening.{IsOpening};
ghost use Rattle.recovery.specs.Recovery.{IsLeftAlone, IsOutside, StandsForNoList, CauseOf};

use crate::keeper::Keeper;
use crate::kept::{Kept, Wanted};
use crate::opening::open;
use crate::recovered::Recovered;
use disk_model::Disk;
use section_store::laws::trusted_trees;
use section_store::{SectionStore, Step};
use std::alloc::Global;
use std::sync::Arc;
use store_faults::RecoverFault;
use timetable::{Rides, StopId, Timetable};

/// Opens the store of that timetable, and of journeys of at most `rides` rides, that a file holds. What the disk has is synced first. Then
/// the bytes are read, a section at a time, and each tree is given to the keeper before the next is read. The trees are those of the list
/// that the bytes stand for. A fresh file is begun; nothing else is written. The disk comes back with each fault, with the same bytes but
/// if a beginning failed; the keeper may have been given some trees then.
pub fn recover_to<D: Disk, K: Keeper>(
    alloc: Global,
    disk: D,
    table: &Arc<Timetable>,
    rides: Rides,
    keeper: &mut K,
) -> Result<SectionStore<D>, (RecoverFault, D)>
    ensures given { IfOk result (λ store. IsGiven (form_of (arc_value table.now) rides) (D.honest disk) (D.state disk) K.takes keeper.old
        keeper.new store.place store.stored (D.state store.disk)) }
    ensures refused { D.honest disk → IfErr result
        (λ e. IsOutside e.0 ⊎ StandsForNoList (form_of (arc_value table.now) rides) (D.state disk).read) }
    ensures cause { D.honest disk → IfErr result (λ e. CauseOf (form_of (arc_value table.now) rides) (D.state disk).read e.0) }
    ensures device { MatchResult result (λ store. D.failures store.disk ≡ D.failures disk)
        (λ e. e.0 ≡ RecoverFault.Device → Grew (D.failures disk) (D.failures e.1)) }
    ensures opening { D.honest disk → MatchResult result
        (λ store. IsOpening (form_of (arc_value table.now) rides) (D.state disk) (D.state store.disk))
        (λ e. IsOpening (form_of (arc_value table.now) rides) (D.state disk) (D.state e.1)) }
    ensures written { D.honest disk → ¬ IsFresh (D.state disk).read
        → IfOk result (λ store. D.state store.disk ≡ after_sync (D.state disk)) }
    ensures alone { D.honest disk → IfErr result (λ e. IsOutside e.0 ⊎ IsLeftAlone (D.state disk) (D.state e.1)) }
    ensures honest { MatchResult result (λ store. D.honest disk ↔ D.honest store.disk) (λ e. D.honest disk ↔ D.honest e.1) }
    ensures ready { IfOk result (λ store. (store.next ≡ Step.WriteBody) × (store.form ≡ form_of (arc_value table.now) rides)) }
{
    trusted_trees();
    open(alloc, keeper, disk, table, rides)
}

/// Opens the store of that timetable, and of journeys of at most `rides` rides, that a file holds. What the disk has is
/// synced first; then the bytes are read, a section at a time. A fresh file is begun; nothing else is written. The trees are
/// those of the list that the bytes stand for. The disk comes back with each fault, with the same bytes unless a
/// beginning failed.
pub fn recover<D: Disk>(
    alloc: Global,
    disk: D,
    table: &Arc<Timetable>,
    rides: Rides,
) -> Result<Recovered<D>, (RecoverFault, D)>
    ensures stands { D.honest disk → IfOk result (λ r. Stands (form_of (arc_value table.now) rides) (D.state disk).read r.trees.items) }
    ensures holds { D.honest disk → IfOk result (λ r.
        Holds (form_of (arc_value table.now) rides) r.trees.items r.store.place r.store.stored (D.state r.store.disk)) }
    ensures refused { D.honest disk → IfErr result
        (λ e. IsOutside e.0 ⊎ StandsForNoList (form_of (arc_value table.now) rides) (D.state disk).read) }
    ensures cause { D.honest disk → IfErr result (λ e. CauseOf (form_of (arc_value table.now) rides) (D.state disk).read e.0) }
    ensures device { MatchResult result (λ r. D.failures r.store.disk ≡ D.failures disk)
        (λ e. e.0 ≡ RecoverFault.Device → Grew (D.failures disk) (D.failures e.1)) }
    ensures opening { D.honest disk → MatchResult result
        (λ r. IsOpening (form_of (arc_value table.now) rides) (D.state disk) (D.state r.store.disk))
        (λ e. IsOpening (form_of (arc_value table.now) rides) (D.state disk) (D.state e.1)) }
    ensures exact { D.honest disk → IsTrusted (form_of (arc_value table.now) rides) (D.state disk)
        → IfOk result (λ r. All (IsExact (form_of (arc_value table.now) rides)) r.trees.items) }
    ensures written { D.honest disk → ¬ IsFresh (D.state disk).read → IfOk result (λ r. D.state r.store.disk ≡ after_sync (D.state disk)) }
    ensures alone { D.honest disk → IfErr result (λ e. IsOutside e.0 ⊎ IsLeftAlone (D.state disk) (D.state e.1)) }
    ensures honest { MatchResult result (λ r. D.honest disk ↔ D.honest r.store.disk) (λ e. D.honest disk ↔ D.honest e.1) }
    ensures ready { IfOk result (λ r. (r.store.next ≡ Step.WriteBody) × (r.store.form ≡ form_of (arc_value table.now) rides)) }
    ensures stored { IfOk result (λ r. r.store.stored ≡ sources r.trees.items) }
    ensures known { IfOk result (λ r. All (λ tree. tree.source < stops_of (arc_value table.now)) r.trees.items) }
{
    let mut kept = Kept {
        alloc,
        wanted: Wanted::All,
        trees: Vec::new(alloc),
    };
    match recover_to(alloc, disk, table, rides, &mut kept) {
        Ok(store) => Ok(Recovered {
            store,
            trees: kept.trees,
        }),
        Err(refused) => Err(refused),
    }
}

/// The same, but of the trees only those of these stops are kept, in storing order, so that a question takes no memory for the others. The
/// store goes on with all that are stored, and the bytes of each are looked at as closely.
pub fn recover_trees_of<D: Disk>(
    alloc: Global,
    disk: D,
    table: &Arc<Timetable>,
    rides: Rides,
    stops: &[StopId],
) -> Result<Recovered<D>, (RecoverFault, D)>
    ensures excerpt { D.honest disk → IfOk result (λ r. IsExcerpt (form_of (arc_value table.now) rides) (D.state disk) stops.now
        r.trees.items r.store.place r.store.stored (D.state r.store.disk)) }
    ensures known { IfOk result (λ r. All (λ s. s < stops_of (arc_value table.now)) r.store.stored) }
    ensures refused { D.honest disk → IfErr result
        (λ e. IsOutside e.0 ⊎ StandsForNoList (form_of (arc_value table.now) rides) (D.state disk).read) }
    ensures cause { D.honest disk → IfErr result (λ e. CauseOf (form_of (arc_value table.now) rides) (D.state disk).read e.0) }
    ensures device { MatchResult result (λ r. D.failures r.store.disk ≡ D.failures disk)
        (λ e. e.0 ≡ RecoverFault.Device → Grew (D.failures disk) (D.failures e.1)) }
    ensures opening { D.honest disk → MatchResult result
        (λ r. IsOpening (form_of (arc_value table.now) rides) (D.state disk) (D.state r.store.disk))
        (λ e. IsOpening (form_of (arc_value table.now) rides) (D.state disk) (D.state e.1)) }
    ensures written { D.honest disk → ¬ IsFresh (D.state disk).read → IfOk result (λ r. D.state r.store.disk ≡ after_sync (D.state disk)) }
    ensures alone { D.honest disk → IfErr result (λ e. IsOutside e.0 ⊎ IsLeftAlone (D.state disk) (D.state e.1)) }
    ensures honest { MatchResult result (λ r. D.honest disk ↔ D.honest r.store.disk) (λ e. D.honest disk ↔ D.honest e.1) }
    ensures ready { IfOk result (λ r. (r.store.next ≡ Step.WriteBody) × (r.store.form ≡ form_of (arc_value table.now) rides)) }
{
    let mut kept = Kept {
        alloc,
        wanted: Wanted::Of(stops),
        trees: Vec::new(alloc),
    };
    match recover_to(alloc, disk, table, rides, &mut kept) {
        Ok(store) => Ok(Recovered {
            store,
            trees: kept.trees,
        }),
        Err(refused) => Err(refused),
    }
}
