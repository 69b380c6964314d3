//! Puts trees together.

ghost use Rattle.std.specs.Prelude.{◌≡◌, ◌↔◌, ◌≢◌, ◌<◌, List, IfErr, OnOk, MatchResult};
ghost use Rattle.disk_model.specs.Disk.{Grew, State};
ghost use Rattle.pattern_tree.specs.Content.{Content};
ghost use Rattle.timetable.specs.Table.{stops_of};
ghost use Rattle.section_store.specs.Store.{Holds};
ghost use Rattle.migration.specs.Migration.{OneIsTooLarge};
ghost use Rattle.merging.specs.Merging.{Goes, Merges, lacked, merged, with_next};
ghost use Rattle.merging.specs.Reads.{IfOfShelf, IsSteady, OnlyFailing};

use crate::fault::MergeFault;
use crate::shelf::Shelf;
use disk_model::Disk;
use progress::{Done, Progress};
use section_store::going_laws::{goes_between, goes_on};
use section_store::{PutFault, SectionStore, Step};
use timetable::StopId;

// Puts the tree of a stop, if the store lacks it and the shelf has it.
fn put_next<E: Disk, S: Shelf>(
    store: &mut SectionStore<E>,
    shelf: &mut S,
    stop: StopId,
) -> Result<(), MergeFault>
    requires ready { store.old.next ≡ Step.WriteBody }
    requires form { S.form shelf.old ≡ store.old.form }
    requires known { stop < stops_of store.old.form.table }
    ensures goes { (disks : List State) (now all : List Content) → E.honest store.old.disk → S.has shelf.old disks all
        → Holds store.old.form now store.old.place store.old.stored (E.state store.old.disk)
        → Goes store.old.form now (with_next now (lacked now all stop)) all (E.state store.old.disk) (E.state store.new.disk) }
    ensures holds { (disks : List State) (now all : List Content) → E.honest store.old.disk → S.has shelf.old disks all
        → Holds store.old.form now store.old.place store.old.stored (E.state store.old.disk)
        → OnOk result (Holds store.old.form (with_next now (lacked now all stop)) store.new.place store.new.stored
        (E.state store.new.disk)) }
    ensures device { MatchResult result
        (λ _. (E.failures store.new.disk ≡ E.failures store.old.disk) × (S.failures shelf.new ≡ S.failures shelf.old))
        (λ fault. (fault ≡ MergeFault.Put PutFault.Device → Grew (E.failures store.old.disk) (E.failures store.new.disk))
        × IfOfShelf (OnlyFailing (S.failures shelf.old) (S.failures shelf.new)) fault) }
    ensures large { (disks : List State) (all : List Content) → S.has shelf.old disks all
        → IfErr result (λ fault. fault ≡ MergeFault.Put PutFault.TooLarge → OneIsTooLarge store.old.form all) }
    ensures changed { (disks : List State) (all : List Content) → S.has shelf.old disks all
        → IfErr result (IfOfShelf IsSteady) }
    ensures kinds { IfErr result (λ fault. (fault ≢ MergeFault.Put PutFault.Failed) × (fault ≢ MergeFault.Put PutFault.OtherTimetable)
        × (fault ≢ MergeFault.Put PutFault.AlreadyStored)) }
    ensures still { (disks : List State) (all : List Content) → S.has shelf.old disks all → S.has shelf.new disks all }
    ensures honest { E.honest store.old.disk ↔ E.honest store.new.disk }
    ensures ready { OnOk result (store.new.next ≡ Step.WriteBody) }
    ensures form { (store.new.form ≡ store.old.form) × (S.form shelf.new ≡ S.form shelf.old) }
{
    goes_on();
    goes_between();
    if store.has(stop) {
        return Ok(());
    }
    match shelf.tree(stop) {
        Err(fault) => Err(MergeFault::Shelf(fault)),
        Ok(found) => match found {
            None => Ok(()),
            Some(tree) => match store.put_tree(&tree) {
                Err(fault) => Err(MergeFault::Put(fault)),
                Ok(_) => Ok(()),
            },
        },
    }
}

/// Puts the trees of the shelf whose stops the store lacks, by rising numbers of the stops. Only one of them is in memory at a time. Each
/// stop that the store has keeps its tree. Stopped at any moment, it goes on when it is called again over the opened store. `progress`
/// hears how many stops the store has, but not that no more come.
///
/// Of honest disks: at each moment each outcome of a crash stands for a front of the merged list that begins with the old one. A trusted
/// disk stays trusted if all given trees are exact.
pub fn merge<E: Disk, S: Shelf, P: Progress>(
    store: &mut SectionStore<E>,
    shelf: &mut S,
    progress: &mut P,
) -> Result<(), MergeFault>
    requires ready { store.old.next ≡ Step.WriteBody }
    requires form { S.form shelf.old ≡ store.old.form }
    ensures merges { (disks : List State) (before all : List Content) → E.honest store.old.disk → S.has shelf.old disks all
        → Holds store.old.form before store.old.place store.old.stored (E.state store.old.disk)
        → Merges store.old.form before all (E.state store.old.disk) (E.state store.new.disk) }
    ensures holds { (disks : List State) (before all : List Content) → E.honest store.old.disk → S.has shelf.old disks all
        → Holds store.old.form before store.old.place store.old.stored (E.state store.old.disk)
        → OnOk result (Holds store.old.form (merged before all (stops_of store.old.form.table)) store.new.place store.new.stored
        (E.state store.new.disk)) }
    ensures device { MatchResult result
        (λ _. (E.failures store.new.disk ≡ E.failures store.old.disk) × (S.failures shelf.new ≡ S.failures shelf.old))
        (λ fault. (fault ≡ MergeFault.Put PutFault.Device → Grew (E.failures store.old.disk) (E.failures store.new.disk))
        × IfOfShelf (OnlyFailing (S.failures shelf.old) (S.failures shelf.new)) fault) }
    ensures large { (disks : List State) (all : List Content) → S.has shelf.old disks all
        → IfErr result (λ fault. fault ≡ MergeFault.Put PutFault.TooLarge → OneIsTooLarge store.old.form all) }
    ensures changed { (disks : List State) (all : List Content) → S.has shelf.old disks all
        → IfErr result (IfOfShelf IsSteady) }
    ensures kinds { IfErr result (λ fault. (fault ≢ MergeFault.Put PutFault.Failed) × (fault ≢ MergeFault.Put PutFault.OtherTimetable)
        × (fault ≢ MergeFault.Put PutFault.AlreadyStored)) }
    ensures still { (disks : List State) (all : List Content) → S.has shelf.old disks all → S.has shelf.new disks all }
    ensures honest { E.honest store.old.disk ↔ E.honest store.new.disk }
    ensures ready { OnOk result (store.new.next ≡ Step.WriteBody) }
    ensures form { (store.new.form ≡ store.old.form) × (S.form shelf.new ≡ S.form shelf.old) }
{
    goes_between();
    goes_on();
    let stops = store.form().timetable().stops();
    progress.reached(Done::Stored, store.stored().len(), stops);
    for number in 0..stops {
        put_next(store, shelf, StopId::new(number as u32))?;
        progress.reached(Done::Stored, store.stored().len(), stops);
    }
    Ok(())
}
