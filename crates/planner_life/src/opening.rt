//! Opens a store, and makes a desk of it.

ghost use Rattle.std.specs.Prelude.{◌≡◌, ◌↔◌, ◌⊎◌, ◌<◌, ℕ, IfOk, IfErr, List, MatchResult, length};
ghost use Rattle.std.specs.Arc.{arc_value};
ghost use Rattle.std.specs.List.{All};
ghost use Rattle.disk_model.specs.Disk.{Grew};
ghost use Rattle.timetable.specs.Table.{stops_of};
ghost use Rattle.section_store.specs.Lasting.{IsTrusted, IsExact};
ghost use Rattle.section_store.specs.Sections.{Form, form_of, sources};
ghost use Rattle.recovery.specs.Recovery.{CauseOf, IsOutside, StandsForNoList};
ghost use Rattle.store_excerpt.specs.Board.{IsBoardOf, AreOf, AreExact, AreWholeAmong, IsWholeAmong};
ghost use Rattle.recovery.specs.Opening.{StandsForSources, IsOpening};
ghost use Rattle.store_excerpt.specs.Excerpt.{ShowsWhole, disk_after};
ghost use Rattle.planner_life.specs.Desk.{IsSound};
ghost use Rattle.planner_life.specs.Gates.{EndsAt};

use crate::desk::Desk;
use crate::tools::Tools;
use disk_model::Disk;
use pattern_tree::PatternTree;
use recovery::{Recovered, recover};
use section_store::Step;
use section_store::laws::trust_lasts;
use std::alloc::{AllocError, Global};
use std::sync::Arc;
use store_excerpt::Board;
use store_faults::RecoverFault;
use timetable::{Rides, Timetable};

// Makes the tools, and the board of the trees. Each tree is let go as soon as its patterns are made.
fn prepare(
    alloc: Global,
    table: &Arc<Timetable>,
    rides: Rides,
    trees: Vec<PatternTree>,
) -> Result<(Tools, Board), AllocError>
    ensures tools { IfOk result (λ made. made.0 ≡ form_of (arc_value table.now) rides) }
    ensures long { IfOk result (λ made. length made.1 ≡ stops_of (arc_value table.now)) }
    ensures shows { IfOk result (λ made. IsBoardOf (stops_of (arc_value table.now)) (sources trees.items) made.1) }
    ensures same { IfOk result (λ made. AreOf trees.items made.1) }
    ensures right { (form : Form) → All (IsExact form) trees.items → IfOk result (λ made. AreExact form made.1) }
    ensures whole { (form : Form) (froms : List ℕ) → All (IsWholeAmong form froms) trees.items
        → IfOk result (λ made. AreWholeAmong form froms made.1) }
{
    let tools = Tools::new(alloc, table, rides)?;
    let board = Board::of(alloc, tools.stops(), trees)?;
    Ok((tools, board))
}

impl<D: Disk> Desk<D> {
    /// Opens the store of that timetable, and of journeys of at most `rides` rides, that a file holds. It is recovered, and each tree
    /// is made into the patterns that questions are asked of, and let go. The desk has the trees of the list that the bytes stand
    /// for. The disk comes back with each fault; want of memory, also after the recovery, is the fault `Memory`.
    ///
    /// A fresh file is begun; to any other nothing is written. A tree that is whole in the file is whole at the desk; of a trusted disk
    /// each tree is exact.
    pub fn open(
        alloc: Global,
        disk: D,
        table: &Arc<Timetable>,
        rides: Rides,
    ) -> Result<Desk<D>, (RecoverFault, D)>
        ensures form { IfOk result (λ desk. desk.form ≡ form_of (arc_value table.now) rides) }
        ensures ready { IfOk result (λ desk. desk.next ≡ Step.WriteBody) }
        ensures stored { D.honest disk → IfOk result (λ desk.
            StandsForSources (form_of (arc_value table.now) rides) desk.stored (D.state disk).read) }
        ensures ends { D.honest disk → IfOk result (λ desk.
            EndsAt (form_of (arc_value table.now) rides) (D.state disk).read desk.stored desk.place) }
        ensures sound { D.honest disk → IfOk result (λ desk. IsSound D.honest D.state desk) }
        ensures refused { D.honest disk → IfErr result
            (λ e. IsOutside e.0 ⊎ StandsForNoList (form_of (arc_value table.now) rides) (D.state disk).read) }
        ensures cause { D.honest disk → IfErr result (λ e. CauseOf (form_of (arc_value table.now) rides) (D.state disk).read e.0) }
        ensures device { MatchResult result (λ desk. D.failures desk.disk ≡ D.failures disk)
            (λ e. e.0 ≡ RecoverFault.Device → Grew (D.failures disk) (D.failures e.1)) }
        ensures moments { D.honest disk
            → IsOpening (form_of (arc_value table.now) rides) (D.state disk) (D.state (disk_after result)) }
        ensures right { D.honest disk → IsTrusted (form_of (arc_value table.now) rides) (D.state disk)
            → IfOk result (λ desk. AreExact desk.form desk.board) }
        ensures whole { D.honest disk → IfOk result (λ desk. ShowsWhole desk.form (D.state disk) desk.stored desk.board) }
        ensures trusted { D.honest disk → IsTrusted (form_of (arc_value table.now) rides) (D.state disk)
            → IsTrusted (form_of (arc_value table.now) rides) (D.state (disk_after result)) }
        ensures honest { D.honest disk ↔ D.honest (disk_after result) }
    {
        trust_lasts();
        let Recovered { store, trees } = match recover(alloc, disk, table, rides) {
            Ok(recovered) => recovered,
            Err(refused) => return Err(refused),
        };
        match prepare(alloc, table, rides, trees) {
            Ok((tools, board)) => Ok(Desk {
                tools,
                board,
                store,
            }),
            Err(_) => Err((RecoverFault::Memory, store.into_disk())),
        }
    }
}
