//! What a core begins with, once its store is recovered.

ghost use Rattle.std.specs.Prelude.{◌≡◌, ◌<◌, IfOk, IfErr, List, MatchResult};
ghost use Rattle.std.specs.List.{All, AllZip, Contains};
ghost use Rattle.disk_model.specs.Disk.{Grew};
ghost use Rattle.disk_model.specs.MemDisk.{failures_of, state_of};
ghost use Rattle.timetable.specs.Table.{stops_of};
ghost use Rattle.pattern_tree.specs.Content.{Content};
ghost use Rattle.section_store.specs.Lasting.{IsExact, IsTrusted};
ghost use Rattle.section_store.specs.Sections.{Stands, sources};
ghost use Rattle.section_store.specs.Store.{Holds};
ghost use Rattle.recovery.specs.Opening.{IsOpening};
ghost use Rattle.recovery.specs.Recovery.{IsOutside};
ghost use Rattle.planner_core.specs.Cores.{running_of};
ghost use Rattle.planner_core.specs.Running.{IsSoundRunning};
ghost use Rattle.planner_core.specs.Steps.{Begins, IsNewLedger, Shows};

use crate::archive::Archive;
use crate::running::Running;
use crate::tools::Tools;
use disk_model::MemDisk;
use pattern_query::Patterns;
use pattern_tree::PatternTree;
use recovery::{Recovered, recover};
use section_store::laws::trust_lasts;
use section_store::{SectionStore, Step};
use std::alloc::{AllocError, Global};
use store_faults::RecoverFault;
use timetable::StopId;
use work_ledger::Ledger;

// The patterns of the trees, in their order.
fn shown_trees(alloc: Global, trees: &[PatternTree]) -> Result<Vec<Patterns>, AllocError>
    ensures { IfOk result (λ board. AllZip Shows trees.now board.items) }
{
    let mut board = Vec::with_capacity(alloc, trees.len())?;
    for tree in trees {
        board.push_reserved(Patterns::of(alloc, tree)?);
    }
    Ok(board)
}

// A new ledger, the board, and the storing order.
fn prepare(
    alloc: Global,
    tools: &Tools,
    stored: &[StopId],
    trees: &[PatternTree],
) -> Result<(Ledger, Vec<Patterns>, Vec<StopId>), AllocError>
    requires { All (λ s. s < stops_of tools.now.form.table) stored.now }
    ensures ledger { IfOk result (λ made. IsNewLedger tools.now stored.now made.0) }
    ensures board { IfOk result (λ made. AllZip Shows trees.now made.1.items) }
    ensures storing { IfOk result (λ made. made.2.items ≡ stored.now) }
{
    let ledger = tools.ledger(alloc, stored)?;
    let board = shown_trees(alloc, trees)?;
    let storing = Vec::from_slice(alloc, stored)?;
    Ok((ledger, board, storing))
}

/// What runs begins with a store that was recovered, and with all that was acknowledged before. The disk comes back if memory runs out.
pub(crate) fn begin(
    alloc: Global,
    tools: &Tools,
    store: SectionStore<MemDisk>,
    trees: &[PatternTree],
    acknowledged: Vec<StopId>,
) -> Result<Running, MemDisk>
    requires form { store.form ≡ tools.now.form }
    requires ready { store.next ≡ Step.WriteBody }
    requires holds { Holds store.form trees.now store.place store.stored (state_of store.disk) }
    requires exact { All (IsExact store.form) trees.now }
    requires known { All (λ tree. tree.source < stops_of store.form.table) trees.now }
    requires held { All (Contains store.stored) acknowledged.items }
    ensures begins { IfOk result (λ running. Begins tools.now trees.now (running_of running)) }
    ensures disk { MatchResult result (λ running. running.archive.disk ≡ state_of store.disk) (λ disk. disk ≡ store.disk) }
    ensures acknowledged { IfOk result (λ running. running.archive.acknowledged ≡ acknowledged.items) }
{
    match prepare(alloc, tools, store.stored(), trees) {
        Err(_) => Err(store.into_disk()),
        Ok((ledger, board, storing)) => Ok(Running {
            ledger,
            hand: None,
            archive: Archive::new(store, storing, acknowledged),
            board,
        }),
    }
}

/// What runs on a trusted disk: its file is recovered, and all that it has counts as acknowledged.
pub(crate) fn open(
    alloc: Global,
    tools: &Tools,
    disk: MemDisk,
) -> Result<Running, (RecoverFault, MemDisk)>
    requires { IsTrusted tools.now.form (state_of disk) }
    ensures opened { IfOk result (λ running. (trees : List Content) × Stands tools.now.form (state_of disk).read trees
        × Begins tools.now trees (running_of running) × (running.archive.acknowledged ≡ sources trees)) }
    ensures sound { IfOk result (λ running. IsSoundRunning tools.now (running_of running)) }
    ensures fault { IfErr result (λ e. IsOutside e.0) }
    ensures device { IfErr result (λ e. e.0 ≡ RecoverFault.Device → Grew (failures_of disk) (failures_of e.1)) }
    ensures given_back { IfErr result (λ e. IsOpening tools.now.form (state_of disk) (state_of e.1)) }
    ensures trusted { IfErr result (λ e. IsTrusted tools.now.form (state_of e.1)) }
{
    trust_lasts();
    let Recovered { store, trees } = match recover(alloc, disk, tools.table(), tools.rides()) {
        Ok(recovered) => recovered,
        Err(refused) => return Err(refused),
    };
    let Ok(acknowledged) = Vec::from_slice(alloc, store.stored()) else {
        return Err((RecoverFault::Memory, store.into_disk()));
    };
    match begin(alloc, tools, store, &trees, acknowledged) {
        Ok(running) => Ok(running),
        Err(disk) => Err((RecoverFault::Memory, disk)),
    }
}
