//! Trees that are audited at once.

ghost use Rattle.std.specs.Prelude.{◌≡◌, ◌<◌, ◌++◌, [], ℕ, List, OnOk, length, slice_index_or};
ghost use Rattle.pattern_tree.specs.Content.{Content};
ghost use Rattle.section_store.specs.Sections.{form_of};
ghost use Rattle.store_audit.specs.Hands.{AreInHand, Gathers, IsDone, joined};
ghost use Rattle.store_audit.specs.declared.due.Due.{Due as DueData};

use crate::crew::Crew;
use crate::due::{Due, TreeAudit};
use progress::{Done, Progress};
use std::alloc::AllocError;
use std::thread;
use std::thread::Threads;

// Audits each of the trees, in at most as many threads as there are workers.
fn audit_each<R: Threads + Sync>(crew: &Crew<'_, R>, due: &mut [Due])
    ensures len { length due.new ≡ length due.old }
    ensures each { (i : ℕ) (d : _) → i < length due.old
        → IsDone (form_of crew.now.network.now crew.now.rides) (slice_index_or due.old i d) (slice_index_or due.new i d) }
{
    let Crew {
        alloc,
        rt,
        network,
        rides,
        workers,
    } = crew;
    let workers = usize::from(*workers);
    let (alloc, network, rides) = (*alloc, *network, *rides);
    thread::for_each_mut(
        *rt,
        due,
        workers,
        &|_, one| {
            one.audit(alloc, network, rides);
        },
    );
}

// Puts the audits of trees after others, in order. It fails if one is none, or memory runs out.
fn gather(due: &[Due], done: &mut Vec<TreeAudit>) -> Result<(), AllocError>
    ensures { OnOk result (Gathers due.now done.old.items done.new.items) }
{
    for one in due {
        let Some(audit) = one.audited() else {
            return Err(AllocError);
        };
        done.push(audit)?;
    }
    Ok(())
}

// Audits the trees of a batch, and puts their audits after others. It fails only if memory runs out.
fn audit_batch<R: Threads + Sync>(
    crew: &Crew<'_, R>,
    batch: &mut Vec<Due>,
    done: &mut Vec<TreeAudit>,
) -> Result<(), AllocError>
    ensures { OnOk result ((trees : List Content) (rest : List DueData)
        → AreInHand (form_of crew.now.network.now crew.now.rides) trees done.old.items (batch.old.items ++ rest)
        → AreInHand (form_of crew.now.network.now crew.now.rides) trees done.new.items rest) }
{
    audit_each(crew, batch);
    gather(batch, done)
}

/// Audits the trees of all batches, and puts their audits after others. Each batch is let go once it is audited. It reports to `progress`
/// how many audits there are then. It fails only if memory runs out.
pub(crate) fn audit_batches<R: Threads + Sync, P: Progress>(
    crew: &Crew<'_, R>,
    batches: Vec<Vec<Due>>,
    done: &mut Vec<TreeAudit>,
    progress: &mut P,
) -> Result<(), AllocError>
    ensures { OnOk result ((trees : List Content)
        → AreInHand (form_of crew.now.network.now crew.now.rides) trees done.old.items (joined batches.items)
        → AreInHand (form_of crew.now.network.now crew.now.rides) trees done.new.items []) }
{
    for batch in batches {
        let mut batch = batch;
        audit_batch(crew, &mut batch, done)?;
        progress.reached(Done::Audited, done.len(), crew.stops());
    }
    Ok(())
}
