//! The audits of all trees of a store.

ghost use Rattle.std.specs.Prelude.{◌≡◌, ◌↔◌, ◌⊎◌, IfErr, IfOk, List};
ghost use Rattle.pattern_tree.specs.Content.{Content};
ghost use Rattle.std.specs.List.{All, AllZip};
ghost use Rattle.disk_model.specs.Disk.{Grew};
ghost use Rattle.recovery.specs.Opening.{IsOpening};
ghost use Rattle.recovery.specs.Recovery.{CauseOf, IsLeftAlone, IsOutside, StandsForNoList};
ghost use Rattle.section_store.specs.Sections.{form_of};
ghost use Rattle.timetable.specs.Table.{stops_of};
ghost use Rattle.store_audit.specs.Hands.{IsHeldTree, IsTakenAudit, waiting_in};
ghost use Rattle.store_audit.specs.TreeAudits.{AreAuditsOf, IsKnown};

use crate::batch::audit_batches;
use crate::crew::Crew;
use crate::due::TreeAudit;
use crate::waiting::Waiting;
use disk_model::Disk;
use progress::{Done, Progress};
use recovery::recover_to;
use std::alloc::AllocError;
use std::thread::Threads;
use store_faults::RecoverFault;

// The audits of the trees that wait, in their order. It fails only if memory runs out.
fn audits_of<R: Threads + Sync, P: Progress>(
    crew: &Crew<'_, R>,
    waiting: Waiting,
    progress: &mut P,
) -> Result<Vec<TreeAudit>, AllocError>
    ensures { (trees : List Content) → AllZip IsHeldTree trees (waiting_in waiting.whole.items waiting.last.items)
        → IfOk result (λ audits. AllZip (IsTakenAudit (form_of crew.now.network.now crew.now.rides)) trees audits.items) }
{
    let Waiting { whole, last, .. } = waiting;
    let mut batches = whole;
    batches.push(last)?;
    let mut done = Vec::new(crew.alloc);
    audit_batches(crew, batches, &mut done, progress)?;
    Ok(done)
}

/// The audits of all trees that the file of the disk has, for the crew's timetable and rides, in the order in which they were stored. The
/// file is recovered, and a fresh one begun; nothing else is written. All trees are in memory then, packed as they are asked. Each batch
/// is let go once it is audited. It reports to `progress` how many are audited. The disk comes back; want of memory, also for an audit, is
/// the fault `Memory`.
pub fn audit_store<D: Disk, R: Threads + Sync, P: Progress>(
    crew: &Crew<'_, R>,
    disk: D,
    progress: &mut P,
) -> (Result<Vec<TreeAudit>, RecoverFault>, D)
    ensures audited { D.honest disk → IfOk result.0 (λ audits.
        AreAuditsOf (form_of crew.now.network.now crew.now.rides) (D.state disk).read audits.items) }
    ensures known { IfOk result.0 (λ audits. All (IsKnown (stops_of crew.now.network.now)) audits.items) }
    ensures refused { D.honest disk → IfErr result.0
        (λ why. IsOutside why ⊎ StandsForNoList (form_of crew.now.network.now crew.now.rides) (D.state disk).read) }
    ensures cause { D.honest disk → IfErr result.0
        (CauseOf (form_of crew.now.network.now crew.now.rides) (D.state disk).read) }
    ensures device { IfErr result.0 (λ why. why ≡ RecoverFault.Device → Grew (D.failures disk) (D.failures result.1)) }
    ensures opening { D.honest disk
        → IsOpening (form_of crew.now.network.now crew.now.rides) (D.state disk) (D.state result.1) }
    ensures alone { D.honest disk → IfErr result.0 (λ why. IsOutside why ⊎ IsLeftAlone (D.state disk) (D.state result.1)) }
    ensures honest { D.honest disk ↔ D.honest result.1 }
{
    progress.reached(Done::Audited, 0, crew.stops());
    let mut waiting = Waiting {
        alloc: crew.alloc,
        size: crew.batch(),
        whole: Vec::new(crew.alloc),
        last: Vec::new(crew.alloc),
    };
    let table = crew.network.shared();
    match recover_to(crew.alloc, disk, table, crew.rides, &mut waiting) {
        Ok(store) => {
            let audits = match audits_of(crew, waiting, progress) {
                Ok(audits) => Ok(audits),
                Err(_) => Err(RecoverFault::Memory),
            };
            (audits, store.into_disk())
        }
        Err((fault, disk)) => (Err(fault), disk),
    }
}
