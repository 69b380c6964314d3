//! Migrates a store.

ghost use Rattle.std.specs.Prelude.{◌≡◌, ◌≢◌, ◌↔◌, ◌<◌, ◌≤◌, ◌+◌, [], List, OnOk, IfOk, IfErr, MatchResult, length, take};
ghost use Rattle.std.specs.Arc.{arc_value};
ghost use Rattle.std.specs.List.{All};
ghost use Rattle.disk_model.specs.Image.{IsOutcome};
ghost use Rattle.disk_model.specs.Disk.{Grew};
ghost use Rattle.disk_model.specs.Moments.{LeavesOnly};
ghost use Rattle.pattern_tree.specs.Content.{Content};
ghost use Rattle.section_store.specs.Between.{GoesBetween};
ghost use Rattle.section_store.specs.Lasting.{IsExact, IsTrusted, StaysTrusted};
ghost use Rattle.section_store.specs.Sections.{AreApart, MayStand, form_of, old_form_of, sources};
ghost use Rattle.section_store.specs.Store.{Holds};
ghost use Rattle.migration.specs.Migration.{IsRead, Migrates, OneIsTooLarge, Stopped};

use crate::comparing::begin_with;
use crate::fault::MigrateFault;
use crate::migrated::Migrated;
use disk_model::Disk;
use pattern_tree::PatternTree;
use progress::{Done, Progress};
use recovery::{read_v1, recover};
use section_store::going_laws::{goes_between, goes_on};
use section_store::{PutFault, SectionStore, Step};
use std::alloc::Global;
use std::sync::Arc;
use store_faults::RecoverFault;
use timetable::{Rides, Timetable};

// Puts the trees from the one of that number on, in order, and reports how many are in the store. Those before it are there.
fn put_rest<E: Disk, P: Progress>(
    store: &mut SectionStore<E>,
    trees: &[PatternTree],
    from: usize,
    progress: &mut P,
) -> Result<(), PutFault>
    requires ready { store.old.next ≡ Step.WriteBody }
    requires within { from ≤ length trees.now }
    requires may { All (MayStand store.old.form) trees.now }
    ensures holds { E.honest store.old.disk
        → Holds store.old.form (take from trees.now) store.old.place store.old.stored (E.state store.old.disk)
        → OnOk result (Holds store.old.form trees.now store.new.place store.new.stored (E.state store.new.disk)) }
    ensures goes { E.honest store.old.disk
        → Holds store.old.form (take from trees.now) store.old.place store.old.stored (E.state store.old.disk)
        → GoesBetween store.old.form (take from trees.now) trees.now (E.state store.old.disk) (E.state store.new.disk) }
    ensures trusted { E.honest store.old.disk
        → Holds store.old.form (take from trees.now) store.old.place store.old.stored (E.state store.old.disk)
        → All (IsExact store.old.form) trees.now → StaysTrusted store.old.form (E.state store.old.disk) (E.state store.new.disk) }
    ensures device { MatchResult result (λ _. E.failures store.new.disk ≡ E.failures store.old.disk)
        (λ fault. fault ≡ PutFault.Device → Grew (E.failures store.old.disk) (E.failures store.new.disk)) }
    ensures kinds { IfErr result (λ fault. (fault ≢ PutFault.Failed) × (fault ≢ PutFault.OtherTimetable)) }
    ensures apart { E.honest store.old.disk
        → Holds store.old.form (take from trees.now) store.old.place store.old.stored (E.state store.old.disk)
        → AreApart [] (sources trees.now) → IfErr result (λ fault. fault ≢ PutFault.AlreadyStored) }
    ensures large { IfErr result (λ fault. fault ≡ PutFault.TooLarge → OneIsTooLarge store.old.form trees.now) }
    ensures honest { E.honest store.old.disk ↔ E.honest store.new.disk }
    ensures ready { OnOk result (store.new.next ≡ Step.WriteBody) }
    ensures form { store.new.form ≡ store.old.form }
{
    goes_on();
    goes_between();
    progress.reached(Done::Migrated, from, trees.len());
    for i in from..trees.len() {
        store.put_tree(&trees[i])?;
        progress.reached(Done::Migrated, i + 1, trees.len());
    }
    Ok(())
}

/// Takes over the trees of a store of the version before into a store of the version that is written now: reads the old file, recovers
/// the new one, which may be fresh or hold a beginning of the old list, and puts the rest in order. Stopped at any moment, it goes on
/// when it is run again. The old file is only read. `progress` hears how many trees are taken over, but not that no more come.
pub fn migrate<D: Disk, E: Disk, P: Progress>(
    alloc: Global,
    source: D,
    target: E,
    table: &Arc<Timetable>,
    rides: Rides,
    progress: &mut P,
) -> Result<Migrated<D, E>, (MigrateFault, D, E)>
    ensures old { D.honest source → MatchResult result
        (λ m. LeavesOnly (D.state source) (D.state m.source) (IsOutcome (D.state source).now))
        (λ e. LeavesOnly (D.state source) (D.state e.1) (IsOutcome (D.state source).now)) }
    ensures done { D.honest source → E.honest target → IfOk result (λ m. (trees : List Content)
        × IsRead (old_form_of (arc_value table.now) rides) (D.state source) (D.state m.source) trees
        × Migrates (old_form_of (arc_value table.now) rides) (form_of (arc_value table.now) rides) (D.state source) (E.state target)
        (E.state m.store.disk) trees
        × Holds (form_of (arc_value table.now) rides) trees m.store.place m.store.stored (E.state m.store.disk)) }
    ensures stopped { D.honest source → E.honest target → IfErr result (λ e.
        Stopped (old_form_of (arc_value table.now) rides) (form_of (arc_value table.now) rides) (D.state source) (D.state e.1)
        (E.state target) (E.state e.2) e.0) }
    ensures device { MatchResult result
        (λ m. (D.failures m.source ≡ D.failures source) × (E.failures m.store.disk ≡ E.failures target))
        (λ e. ((e.0 ≡ MigrateFault.Old RecoverFault.Device) → Grew (D.failures source) (D.failures e.1))
        × ((e.0 ≡ MigrateFault.New RecoverFault.Device) → Grew (E.failures target) (E.failures e.2))
        × ((e.0 ≡ MigrateFault.Put PutFault.Device) → Grew (E.failures target) (E.failures e.2))) }
    ensures honest { MatchResult result (λ m. (D.honest source ↔ D.honest m.source) × (E.honest target ↔ E.honest m.store.disk))
        (λ e. (D.honest source ↔ D.honest e.1) × (E.honest target ↔ E.honest e.2)) }
    ensures ready { IfOk result (λ m. (m.store.next ≡ Step.WriteBody) × (m.store.form ≡ form_of (arc_value table.now) rides)) }
{
    goes_between();
    match read_v1(alloc, source, table, rides) {
        Err(refused) => Err((MigrateFault::Old(refused.0), refused.1, target)),
        Ok(read) => {
            let (source, trees) = read;
            match recover(alloc, target, table, rides) {
                Err(refused) => Err((MigrateFault::New(refused.0), source, refused.1)),
                Ok(recovered) => {
                    let found = recovered.trees;
                    let mut store = recovered.store;
                    match begin_with(alloc, &trees, &found) {
                        Err(_) => Err((
                            MigrateFault::New(RecoverFault::Memory),
                            source,
                            store.into_disk(),
                        )),
                        Ok(begin) => {
                            if !begin {
                                return Err((MigrateFault::OtherList, source, store.into_disk()));
                            }
                            match put_rest(&mut store, &trees, found.len(), progress) {
                                Err(fault) => {
                                    Err((MigrateFault::Put(fault), source, store.into_disk()))
                                }
                                Ok(()) => Ok(Migrated { source, store }),
                            }
                        }
                    }
                }
            }
        }
    }
}
