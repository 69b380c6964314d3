//! The opening of a store whose missing trees are to be built.

ghost use Rattle.std.specs.Prelude.{◌≡◌, ◌↔◌, ◌⊎◌, MatchResult, IfOk, IfErr};
ghost use Rattle.disk_model.specs.Disk.{Grew};
ghost use Rattle.recovery.specs.Opening.{IsOpening, StandsForSources};
ghost use Rattle.recovery.specs.Recovery.{CauseOf, IsLeftAlone, IsOutside, StandsForNoList};
ghost use Rattle.planner.specs.Desk.{IsSound};
ghost use Rattle.store_building.specs.Replies.{IsOpenedReader};
ghost use Rattle.store_terms.specs.Stores.{form_over};
ghost use Rattle.store_building.specs.Openings.{cause_of, planner_over};

use board::Reader;
use disk_model::Disk;
use feed_basis::Basis;
use planner::{Desk, OpenFault, Opened, Planner};
use section_store::Step;
use section_store::going_laws::goes_on;
use std::alloc::Global;
use std::sync::{Arc, Wait};
use store_faults::RecoverFault;
use timetable::Rides;

// Why a planner isn't opened, as a recovery reports it.
fn cause(fault: OpenFault) -> RecoverFault
    ensures { result ≡ cause_of fault }
{
    match fault {
        OpenFault::Recover(fault) => fault,
        OpenFault::Memory => RecoverFault::Memory,
    }
}

/// An open store, a planner over it, and one reader of its board.
pub struct OpenStore<D: Disk> {
    pub planner: Planner,
    pub desk: Desk<D>,
    pub reader: Reader,
}

/// Opens the store that the file of the disk holds, for the basis's timetable and journeys of at most `rides` rides. The file is recovered,
/// and a fresh one begun. The disk comes back with each fault, and nothing was done to it if memory ran out before.
pub fn open<D: Disk, T: Wait>(
    alloc: Global,
    rt: &T,
    basis: &Basis,
    rides: Rides,
    disk: D,
) -> Result<OpenStore<D>, (RecoverFault, D)>
    ensures planner { IfOk result (λ o. o.planner ≡ planner_over basis.now rides) }
    ensures board { IfOk result (λ o. o.reader.origin.form ≡ form_over basis.now rides) }
    ensures reader { D.honest disk → IfOk result (λ o. IsOpenedReader (form_over basis.now rides) (D.state disk) o.reader) }
    ensures form { IfOk result (λ o. o.desk.form ≡ form_over basis.now rides) }
    ensures ready { IfOk result (λ o. o.desk.next ≡ Step.WriteBody) }
    ensures stood { D.honest disk
        → IfOk result (λ o. StandsForSources (form_over basis.now rides) o.desk.stored (D.state disk).read) }
    ensures sound { D.honest disk → IfOk result (λ o. IsSound D.honest D.state o.desk) }
    ensures cause { D.honest disk → IfErr result (λ e. CauseOf (form_over basis.now rides) (D.state disk).read e.0) }
    ensures refused { D.honest disk
        → IfErr result (λ e. IsOutside e.0 ⊎ StandsForNoList (form_over basis.now rides) (D.state disk).read) }
    ensures device { MatchResult result (λ o. D.failures o.desk.disk ≡ D.failures disk)
        (λ e. e.0 ≡ RecoverFault.Device → Grew (D.failures disk) (D.failures e.1)) }
    ensures moments { D.honest disk → MatchResult result
        (λ o. IsOpening (form_over basis.now rides) (D.state disk) (D.state o.desk.disk))
        (λ e. IsOpening (form_over basis.now rides) (D.state disk) (D.state e.1)) }
    ensures alone { D.honest disk → IfErr result (λ e. IsOutside e.0 ⊎ IsLeftAlone (D.state disk) (D.state e.1)) }
    ensures honest { MatchResult result (λ o. D.honest disk ↔ D.honest o.desk.disk) (λ e. D.honest disk ↔ D.honest e.1) }
{
    goes_on();
    let Ok(network) = basis.network(alloc) else {
        return Err((RecoverFault::Memory, disk));
    };
    let Ok(names) = Arc::try_clone(basis.shared_names()) else {
        return Err((RecoverFault::Memory, disk));
    };
    let Opened {
        planner,
        desk,
        mut readers,
    } = match Planner::open(alloc, rt, disk, network, names, rides, 1) {
        Ok(opened) => opened,
        Err((fault, disk)) => return Err((cause(fault), disk)),
    };
    match readers.pop() {
        Some(reader) => Ok(OpenStore {
            planner,
            desk,
            reader,
        }),
        None => Err((RecoverFault::Memory, desk.into_disk(rt))),
    }
}

/// The same, but no tree of the store is kept in memory, and nobody can ask. It is for a build.
pub fn open_unshown<D: Disk, T: Wait>(
    alloc: Global,
    rt: &T,
    basis: &Basis,
    rides: Rides,
    disk: D,
) -> Result<(Planner, Desk<D>), (RecoverFault, D)>
    ensures planner { IfOk result (λ o. o.0 ≡ planner_over basis.now rides) }
    ensures form { IfOk result (λ o. o.1.form ≡ form_over basis.now rides) }
    ensures ready { IfOk result (λ o. o.1.next ≡ Step.WriteBody) }
    ensures stood { D.honest disk
        → IfOk result (λ o. StandsForSources (form_over basis.now rides) o.1.stored (D.state disk).read) }
    ensures sound { D.honest disk → IfOk result (λ o. IsSound D.honest D.state o.1) }
    ensures cause { D.honest disk → IfErr result (λ e. CauseOf (form_over basis.now rides) (D.state disk).read e.0) }
    ensures refused { D.honest disk
        → IfErr result (λ e. IsOutside e.0 ⊎ StandsForNoList (form_over basis.now rides) (D.state disk).read) }
    ensures device { MatchResult result (λ o. D.failures o.1.disk ≡ D.failures disk)
        (λ e. e.0 ≡ RecoverFault.Device → Grew (D.failures disk) (D.failures e.1)) }
    ensures moments { D.honest disk → MatchResult result
        (λ o. IsOpening (form_over basis.now rides) (D.state disk) (D.state o.1.disk))
        (λ e. IsOpening (form_over basis.now rides) (D.state disk) (D.state e.1)) }
    ensures alone { D.honest disk → IfErr result (λ e. IsOutside e.0 ⊎ IsLeftAlone (D.state disk) (D.state e.1)) }
    ensures honest { MatchResult result (λ o. D.honest disk ↔ D.honest o.1.disk) (λ e. D.honest disk ↔ D.honest e.1) }
{
    goes_on();
    let Ok(network) = basis.network(alloc) else {
        return Err((RecoverFault::Memory, disk));
    };
    let Ok(names) = Arc::try_clone(basis.shared_names()) else {
        return Err((RecoverFault::Memory, disk));
    };
    match Planner::open_unshown(alloc, rt, disk, network, names, rides) {
        Ok(opened) => Ok(opened),
        Err((fault, disk)) => Err((cause(fault), disk)),
    }
}
