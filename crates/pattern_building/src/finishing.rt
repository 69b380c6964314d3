//! Trees that are built and done.

ghost use Rattle.std.specs.Prelude.{◌≡◌, ℕ, ◌<◌, ◌≤◌, Err, IfOk};
ghost use Rattle.std.specs.Arc.{arc_value};
ghost use Rattle.timetable.specs.Table.{stops_of};
ghost use Rattle.rounds.specs.Scratch.{IsMadeFor, IsAlike, rides_of};
ghost use Rattle.pattern_tree.specs.Completeness.{Complete, Earned, TooManyAreEarned};

use crate::building::build;
use pattern_tree::{Arena, Finished, PatternTree, TreeFault};
use rounds::Scratch;
use std::alloc::Global;
use std::sync::Arc;
use timetable::{Rides, StopId, Timetable};

// Builds in the arena and copies out of it.
fn build_and_copy(
    alloc: Global,
    table: &Timetable,
    source: StopId,
    scratch: &mut Scratch,
    arena: &Arena,
) -> Result<PatternTree, TreeFault>
    requires table { IsMadeFor scratch.old table.now }
    requires source { source < stops_of table.now }
    ensures same { IsAlike scratch.old scratch.new }
    ensures source { IfOk result (λ tree. tree.source ≡ source) }
    ensures complete { IfOk result (λ tree. Complete table.now (rides_of scratch.old) source tree.pairs) }
    ensures earned { IfOk result (λ tree. Earned table.now (rides_of scratch.old) source tree.pairs) }
    ensures large { result ≡ Err TreeFault.TooLarge → TooManyAreEarned table.now (rides_of scratch.old) source }
{
    let tree = build(arena.bump(), alloc, table, source, scratch)?;
    tree.copy_to(alloc)
}

/// The finished tree of a source, for this timetable and at most `k` rides, for which the scratch is. It is built in the arena
/// and copied out. Then the arena is made free, or takes new memory if something that was forgotten still holds it.
///
/// TooLarge comes only if there are more patterns and ends than a tree holds. Every other fault is that memory ran
/// out, also for the arena, which can be used again after any fault.
pub fn finish(
    alloc: Global,
    table: &Arc<Timetable>,
    source: StopId,
    k: Rides,
    scratch: &mut Scratch,
    arena: &mut Arena,
) -> Result<Finished, TreeFault>
    requires source { source < stops_of (arc_value table.now) }
    requires table { IsMadeFor scratch.old (arc_value table.now) }
    requires rides { rides_of scratch.old ≡ k }
    ensures same { IsAlike scratch.old scratch.new }
    ensures source { IfOk result (λ finished. finished.tree.source ≡ source) }
    ensures table { IfOk result (λ finished. finished.table ≡ arc_value table.now) }
    ensures rides { IfOk result (λ finished. finished.rides ≡ k) }
    ensures large { result ≡ Err TreeFault.TooLarge → TooManyAreEarned (arc_value table.now) k source }
{
    let table = Arc::try_clone(table)?;
    let built = build_and_copy(alloc, &table, source, scratch, arena);
    let renewed = arena.renew(alloc);
    let tree = built?;
    renewed?;
    Ok(Finished::new(table, k, tree))
}
