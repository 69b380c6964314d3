//! Opens a store.

ghost use Rattle.std.specs.Prelude.{◌≡◌, ◌↔◌, ◌⊎◌, ◌≤◌, ◌<◌, OnOk, OnErr, IfOk, IfErr, IfSome, IfNone, MatchResult, MatchOption, drop};
ghost use Rattle.std.specs.Arc.{arc_value};
ghost use Rattle.disk_model.specs.Disk.{after_sync, Grew};
ghost use Rattle.std.specs.List.{All};
ghost use Rattle.timetable.specs.Table.{stops_of};
ghost use Rattle.section_store.specs.Sections.{IsFresh, Stands, form_of, sources};
ghost use Rattle.section_store.specs.Sources.{IsSetOf};
ghost use Rattle.section_store.specs.Store.{Holds};
ghost use Rattle.recovery.specs.Reading.{OnlyCounted, IsRead, IsSoFar, IsShut, IsRefusal};
ghost use Rattle.recovery.specs.Opening.{IsOpening};
ghost use Rattle.recovery.specs.Recovery.{IsLeftAlone, IsOutside, StandsForNoList, CauseOf};

use crate::found::Found;
use crate::header::first_gate;
use crate::keeper::Keeper;
use crate::sections::read_sections;
use disk_model::Disk;
use section_store::laws::{loses_nothing_in_turn, stands_for_one, syncs_lose_nothing};
use section_store::{Form, PutFault, SectionStore, Step, begin};
use std::alloc::Global;
use std::sync::Arc;
use store_faults::RecoverFault;
use timetable::{Rides, Timetable};

/// Brings to the disk what it has, and reads the store; none if the file is fresh.
pub(crate) fn look<D: Disk, K: Keeper>(
    alloc: Global,
    keeper: &mut K,
    disk: &mut D,
    form: &Form,
) -> Result<Option<Found>, RecoverFault>
    ensures honest { D.honest disk.old ↔ D.honest disk.new }
    ensures synced { D.honest disk.old → OnOk result (D.state disk.new ≡ after_sync (D.state disk.old)) }
    ensures stays { D.honest disk.old → OnErr result
        ((D.state disk.new ≡ D.state disk.old) ⊎ (D.state disk.new ≡ after_sync (D.state disk.old))) }
    ensures fresh { D.honest disk.old → IfOk result (λ found. MatchOption found (IsFresh (D.state disk.old).read)
        (λ found. (¬ IsFresh (D.state disk.old).read) × IsShut (drop found.place (D.state disk.old).read))) }
    ensures found { IfOk result (λ found. IfSome found (λ found. IsRead form.now K.takes keeper.old keeper.new found.stored.items
        (λ trees. D.honest disk.old → IsSoFar form.now (D.state disk.old).read trees found.place))) }
    ensures untouched { IfOk result (λ found. IfNone found (keeper.new ≡ keeper.old)) }
    ensures refused { D.honest disk.old → IfErr result (IsRefusal form.now (D.state disk.old).read) }
    ensures present { IfOk result (λ found. IfSome found (λ found.
        IsSetOf (stops_of form.now.table) found.present found.stored.items)) }
    ensures counted { OnlyCounted result (D.failures disk.old) (D.failures disk.new) }
{
    let mut piece = Vec::new(alloc);
    if disk.sync().is_err() {
        return Err(RecoverFault::Device);
    }
    let end = match disk.len() {
        Ok(end) => end,
        Err(_) => return Err(RecoverFault::Device),
    };
    match first_gate(alloc, disk, end, form, &mut piece) {
        Err(fault) => Err(fault),
        Ok(gate) => match gate {
            None => Ok(None),
            Some(start) => match read_sections(alloc, keeper, disk, start, end, form, &mut piece) {
                Err(fault) => Err(fault),
                Ok(found) => Ok(Some(found)),
            },
        },
    }
}

// Why a store wasn't begun.
fn begin_fault(fault: PutFault) -> RecoverFault
    ensures memory { fault ≡ PutFault.Memory → result ≡ RecoverFault.Memory }
    ensures outside { IsOutside result }
{
    match fault {
        PutFault::Memory => RecoverFault::Memory,
        _ => RecoverFault::Device,
    }
}

/// Brings to the disk what it has, and opens the store; a fresh file is begun. Each tree is given to the keeper. The disk comes back with
/// each fault.
pub(crate) fn open<D: Disk, K: Keeper>(
    alloc: Global,
    keeper: &mut K,
    disk: D,
    table: &Arc<Timetable>,
    rides: Rides,
) -> Result<SectionStore<D>, (RecoverFault, D)>
    ensures read { IfOk result (λ r. IsRead (form_of (arc_value table.now) rides) K.takes keeper.old keeper.new r.stored
        (λ trees. D.honest disk → Stands (form_of (arc_value table.now) rides) (D.state disk).read trees
        × Holds (form_of (arc_value table.now) rides) trees r.place r.stored (D.state r.disk))) }
    ensures refused { D.honest disk → IfErr result
        (λ e. IsOutside e.0 ⊎ StandsForNoList (form_of (arc_value table.now) rides) (D.state disk).read) }
    ensures cause { D.honest disk → IfErr result (λ e. CauseOf (form_of (arc_value table.now) rides) (D.state disk).read e.0) }
    ensures device { MatchResult result (λ r. D.failures r.disk ≡ D.failures disk)
        (λ e. e.0 ≡ RecoverFault.Device → Grew (D.failures disk) (D.failures e.1)) }
    ensures opening { D.honest disk → MatchResult result
        (λ r. IsOpening (form_of (arc_value table.now) rides) (D.state disk) (D.state r.disk))
        (λ e. IsOpening (form_of (arc_value table.now) rides) (D.state disk) (D.state e.1)) }
    ensures written { D.honest disk → ¬ IsFresh (D.state disk).read → IfOk result (λ r. D.state r.disk ≡ after_sync (D.state disk)) }
    ensures alone { D.honest disk → IfErr result (λ e. IsOutside e.0 ⊎ IsLeftAlone (D.state disk) (D.state e.1)) }
    ensures honest { MatchResult result (λ r. D.honest disk ↔ D.honest r.disk) (λ e. D.honest disk ↔ D.honest e.1) }
    ensures ready { IfOk result (λ r. (r.next ≡ Step.WriteBody) × (r.form ≡ form_of (arc_value table.now) rides)) }
{
    stands_for_one();
    syncs_lose_nothing();
    loses_nothing_in_turn();
    let Ok(kept) = Arc::try_clone(table) else {
        return Err((RecoverFault::Memory, disk));
    };
    let form = Form::new(kept, rides);
    let mut disk = disk;
    match look(alloc, keeper, &mut disk, &form) {
        Err(fault) => Err((fault, disk)),
        Ok(seen) => match seen {
            None => match begin(alloc, disk, table, rides) {
                Ok(store) => Ok(store),
                Err(refused) => Err((begin_fault(refused.0), refused.1)),
            },
            Some(found) => Ok(SectionStore::resume(
                alloc,
                disk,
                form,
                found.stored,
                found.present,
                found.place,
            )),
        },
    }
}
