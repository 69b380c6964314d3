//! Opens a planner.

ghost use Rattle.std.specs.Prelude.{◌≡◌, ◌↔◌, ◌⊎◌, ◌<◌, ◌≤◌, [], IfOk, IfErr, MatchResult, length};
ghost use Rattle.std.specs.Arc.{arc_value};
ghost use Rattle.std.specs.List.{All};
ghost use Rattle.disk_model.specs.Disk.{Grew};
ghost use Rattle.recovery.specs.Giving.{IsGiven};
ghost use Rattle.recovery.specs.Opening.{IsOpening, StandsForSources};
ghost use Rattle.recovery.specs.Recovery.{IsLeftAlone};
ghost use Rattle.section_store.specs.Lasting.{IsTrusted, IsExact};
ghost use Rattle.section_store.specs.Sections.{form_of};
ghost use Rattle.planner.specs.Desk.{IsSound};
ghost use Rattle.planner.specs.Opening.{HoldsList, IsNotTheBytes, IsOpened, IsUnopened};

use crate::desk::Desk;
use crate::fault::OpenFault;
use crate::plan::Planner;
use crate::sharing::Sharing;
use board::{Reader, open_shared};
use direct_connections::Network;
use disk_model::Disk;
use feed_ids::Names;
use recovery::{Keeper, Nobody, recover_to};
use section_store::{SectionStore, Step};
use std::alloc::Global;
use std::sync::{Arc, Wait};
use store_faults::RecoverFault;
use timetable::Rides;

// Opens the store of the network's timetable, and gives each of its trees to the keeper.
fn open_store<D: Disk, K: Keeper>(
    alloc: Global,
    disk: D,
    network: &Network,
    rides: Rides,
    keeper: &mut K,
) -> Result<SectionStore<D>, (OpenFault, D)>
    ensures given { IfOk result (λ store. IsGiven (form_of network.now rides) (D.honest disk) (D.state disk) K.takes keeper.old keeper.new
        store.place store.stored (D.state store.disk)) }
    ensures ready { IfOk result (λ store. (store.next ≡ Step.WriteBody) × (store.form ≡ form_of network.now rides)) }
    ensures refused { D.honest disk → IfErr result (λ e. IsUnopened (form_of network.now rides) (D.state disk).read e.0) }
    ensures device { MatchResult result (λ store. D.failures store.disk ≡ D.failures disk)
        (λ e. e.0 ≡ OpenFault.Recover RecoverFault.Device → Grew (D.failures disk) (D.failures e.1)) }
    ensures opening { D.honest disk → MatchResult result
        (λ store. IsOpening (form_of network.now rides) (D.state disk) (D.state store.disk))
        (λ e. IsOpening (form_of network.now rides) (D.state disk) (D.state e.1)) }
    ensures alone { D.honest disk → IfErr result (λ e. IsNotTheBytes e.0 ⊎ IsLeftAlone (D.state disk) (D.state e.1)) }
    ensures honest { MatchResult result (λ store. D.honest disk ↔ D.honest store.disk) (λ e. D.honest disk ↔ D.honest e.1) }
{
    let table = network.shared();
    match recover_to(alloc, disk, table, rides, keeper) {
        Ok(store) => Ok(store),
        Err(refused) => Err((OpenFault::Recover(refused.0), refused.1)),
    }
}

/// A planner, the desk at which its trees are built and stored, and the readers of its board, who ask.
pub struct Opened<D: Disk> {
    pub planner: Planner,
    pub desk: Desk<D>,
    pub readers: Vec<Reader>,
}

impl Planner {
    /// Opens the store of the network's timetable, and of journeys of at most `rides` rides, that a file holds, and a board with `readers`
    /// readers. Both have exactly the trees of the list that the bytes stand for. The names are those of the timetable's feed. The disk
    /// comes back with each fault, as the recovery left it; `rt` is for closing the board if a reader finds no place.
    ///
    /// A fresh file is begun; to any other nothing is written. Of a trusted disk each tree is exact. No tree is kept but as the board
    /// shows it: it becomes so before the next is read.
    pub fn open<D: Disk, R: Wait>(
        alloc: Global,
        rt: &R,
        disk: D,
        network: Network,
        names: Arc<Names>,
        rides: Rides,
        readers: usize,
    ) -> Result<Opened<D>, (OpenFault, D)>
        requires readers { (0 < readers) × (readers ≤ 64) }
        ensures planner { IfOk result (λ o. o.planner ≡ record { form = form_of network rides; names = arc_value names }) }
        ensures form { IfOk result (λ o. o.desk.form ≡ form_of network rides) }
        ensures own { IfOk result (λ o. o.desk.board.origin.form ≡ form_of network rides) }
        ensures ready { IfOk result (λ o. o.desk.next ≡ Step.WriteBody) }
        ensures list { D.honest disk → IfOk result (λ o. HoldsList (D.state disk).read o.desk) }
        ensures opened { IfOk result (λ o. IsOpened o.desk.board) }
        ensures readers { IfOk result (λ o. length o.readers.items ≡ readers) }
        ensures each { IfOk result (λ o.
            All (λ reader. reader ≡ record { origin = o.desk.board.origin; told = o.desk.board.told }) o.readers.items) }
        ensures sound { D.honest disk → IfOk result (λ o. IsSound D.honest D.state o.desk) }
        ensures right { D.honest disk → IsTrusted (form_of network rides) (D.state disk)
            → IfOk result (λ o. All (IsExact o.desk.form) o.desk.board.origin.opened.list) }
        ensures refused { D.honest disk → IfErr result (λ e. IsUnopened (form_of network rides) (D.state disk).read e.0) }
        ensures device { MatchResult result (λ o. D.failures o.desk.disk ≡ D.failures disk)
            (λ e. e.0 ≡ OpenFault.Recover RecoverFault.Device → Grew (D.failures disk) (D.failures e.1)) }
        ensures moments { D.honest disk → MatchResult result
            (λ o. IsOpening (form_of network rides) (D.state disk) (D.state o.desk.disk))
            (λ e. IsOpening (form_of network rides) (D.state disk) (D.state e.1)) }
        ensures alone { D.honest disk → IfErr result (λ e. IsNotTheBytes e.0 ⊎ IsLeftAlone (D.state disk) (D.state e.1)) }
        ensures honest { MatchResult result (λ o. D.honest disk ↔ D.honest o.desk.disk) (λ e. D.honest disk ↔ D.honest e.1) }
    {
        let mut sharing = Sharing {
            alloc,
            trees: Vec::new(alloc),
        };
        let store = match open_store(alloc, disk, &network, rides, &mut sharing) {
            Ok(store) => store,
            Err(refused) => return Err(refused),
        };
        let table = network.shared();
        match open_shared(alloc, rt, table, rides, sharing.trees, readers) {
            Err(_) => Err((OpenFault::Memory, store.into_disk())),
            Ok((writer, readers)) => Ok(Opened {
                planner: Planner::new(network, names, rides),
                desk: Desk::new(store, writer),
                readers,
            }),
        }
    }

    /// The same, but none of the store's trees is shown, and none is kept in memory. It is for a build, during which nobody asks.
    pub fn open_unshown<D: Disk, R: Wait>(
        alloc: Global,
        rt: &R,
        disk: D,
        network: Network,
        names: Arc<Names>,
        rides: Rides,
    ) -> Result<(Planner, Desk<D>), (OpenFault, D)>
        ensures planner { IfOk result (λ o. o.0 ≡ record { form = form_of network rides; names = arc_value names }) }
        ensures form { IfOk result (λ o. o.1.form ≡ form_of network rides) }
        ensures ready { IfOk result (λ o. o.1.next ≡ Step.WriteBody) }
        ensures list { D.honest disk → IfOk result (λ o. StandsForSources o.1.form o.1.stored (D.state disk).read) }
        ensures unshown { IfOk result (λ o. o.1.board.told.list ≡ []) }
        ensures sound { D.honest disk → IfOk result (λ o. IsSound D.honest D.state o.1) }
        ensures refused { D.honest disk → IfErr result (λ e. IsUnopened (form_of network rides) (D.state disk).read e.0) }
        ensures device { MatchResult result (λ o. D.failures o.1.disk ≡ D.failures disk)
            (λ e. e.0 ≡ OpenFault.Recover RecoverFault.Device → Grew (D.failures disk) (D.failures e.1)) }
        ensures moments { D.honest disk → MatchResult result
            (λ o. IsOpening (form_of network rides) (D.state disk) (D.state o.1.disk))
            (λ e. IsOpening (form_of network rides) (D.state disk) (D.state e.1)) }
        ensures alone { D.honest disk → IfErr result (λ e. IsNotTheBytes e.0 ⊎ IsLeftAlone (D.state disk) (D.state e.1)) }
        ensures honest { MatchResult result (λ o. D.honest disk ↔ D.honest o.1.disk) (λ e. D.honest disk ↔ D.honest e.1) }
    {
        let store = match open_store(alloc, disk, &network, rides, &mut Nobody) {
            Ok(store) => store,
            Err(refused) => return Err(refused),
        };
        let table = network.shared();
        match open_shared(alloc, rt, table, rides, Vec::new(alloc), 1) {
            Err(_) => Err((OpenFault::Memory, store.into_disk())),
            Ok((writer, _readers)) => {
                Ok((
                    Planner::new(network, names, rides),
                    Desk::new(store, writer),
                ))
            }
        }
    }
}
