//! Stores trees at a desk as they come.

ghost use Rattle.std.specs.Prelude.{◌≡◌, []};
ghost use Rattle.section_store.specs.Sections.{form_of};
ghost use Rattle.tree_crew.specs.Flushed.{Flushed, ShowsTo};

use crate::audience::Audience;
use crate::parted::Parted;
use crate::publishing::Publisher;
use crate::taking::Taker;
use disk_model::Disk;
use flusher::{FlushEnd, flush};
use planner::Desk;
use progress::Progress;
use section_store::Step;
use section_store::going_laws::goes_on;
use shared_ledger::Basis;
use std::alloc::Global;
use std::sync::Wait;

/// Stores trees, and shows them to the audience, until no more come or the device fails. Each that is stored is reported to `progress`.
pub(crate) fn flush_desk<D: Disk, B: Basis + Parted, R: Wait, P: Progress>(
    rt: &R,
    alloc: Global,
    taker: Taker<'_, B, R>,
    desk: Desk<D>,
    progress: &mut P,
    audience: Audience,
) -> (Desk<D>, FlushEnd)
    requires ready { desk.next ≡ Step.WriteBody }
    requires fresh { (taker.taken.items ≡ []) × (taker.acked.items ≡ []) }
    requires form { form_of B.table B.rides ≡ desk.form }
    ensures flushed { Flushed B.part D.honest D.state D.failures result.1 desk result.0 }
    ensures shown { ShowsTo audience desk.board result.0.board }
{
    goes_on();
    let mut taker = taker;
    let (store, writer) = desk.apart();
    let mut store = store;
    let stops = taker.stops();
    let mut publisher = Publisher {
        rt,
        alloc,
        stops,
        progress,
        audience,
        writer,
    };
    let end = flush(&mut store, &mut taker, &mut publisher);
    let Publisher {
        rt: _,
        alloc: _,
        stops: _,
        progress: _,
        audience: _,
        writer,
    } = publisher;
    (Desk::new(store, writer), end)
}
