//! Which stops a tree may lack patterns to, by the tree that is built for its source.

ghost use Rattle.std.specs.Prelude.{◌≡◌, ◌<◌, ◌≤◌, ℕ, IfOk, false, length};
ghost use Rattle.timetable.specs.Table.{stops_of};
ghost use Rattle.rounds.specs.Scratch.{IsAlike, IsMadeFor, rides_of};
ghost use Rattle.pattern_tree.specs.Content.{longest};
ghost use Rattle.auditing.specs.Lacks.{AgreeUnmarked, IsLookedFor, is_marked};

use pattern_building::build;
use pattern_query::Patterns;
use pattern_tree::{Arena, TreeFault, Visitor};
use rounds::Scratch;
use std::alloc::{AllocError, Global};
use timetable::{StopId, Timetable};

/// The stops that a pair ends at which the patterns don't have.
#[derive(Drop)]
pub(crate) struct Lacking<'a> {
    patterns: &'a Patterns,
    marks: Vec<bool>,
}

impl Visitor for Lacking<'_> {
    ghost shows = { IsLookedFor };

    fn visit(&mut self, path: &[(StopId, StopId)], end: StopId) {
        if !self.patterns.contains(path, end) {
            if let Some(mark) = self.marks.get_mut(end.number()) {
                *mark = true;
            }
        }
    }
}

/// Whether a stop is marked.
pub(crate) fn has_mark(marks: &[bool]) -> bool
    ensures { result ≡ false → (t : ℕ) → t < length marks.now → is_marked marks.now t ≡ false }
{
    for mark in marks {
        if *mark {
            return true;
        }
    }
    false
}

// The same mark for each stop.
fn marks_of(alloc: Global, stops: usize, marked: bool) -> Result<Vec<bool>, AllocError>
    ensures size { IfOk result (λ marks. length marks.items ≡ stops) }
    ensures same { IfOk result (λ marks. (t : ℕ) → is_marked marks.items t ≡ false → marked ≡ false) }
{
    Ok(vec![in alloc; marked; stops]?)
}

/// Marks the stops to which the patterns may lack one of a best journey. These are the stops at which a pair ends that the tree built for
/// the source has and the patterns don't. If that tree would be too large, each stop is marked. It fails only if memory runs out.
pub(crate) fn lacking_stops(
    alloc: Global,
    table: &Timetable,
    patterns: &Patterns,
    scratch: &mut Scratch,
) -> Result<Vec<bool>, AllocError>
    requires table { IsMadeFor scratch.old table.now }
    requires source { patterns.now.source < stops_of table.now }
    ensures same { IsAlike scratch.old scratch.new }
    ensures size { IfOk result (λ marks. length marks.items ≡ stops_of table.now) }
    ensures agree { longest patterns.now.pairs ≤ rides_of scratch.old
        → IfOk result (λ marks. AgreeUnmarked table.now patterns.now (rides_of scratch.old) marks.items) }
{
    let arena = Arena::new(alloc)?;
    match build(arena.bump(), alloc, table, patterns.source(), scratch) {
        Ok(tree) => {
            let mut lacking = Lacking {
                patterns,
                marks: marks_of(alloc, table.stops(), false)?,
            };
            tree.walk(&mut lacking);
            Ok(lacking.marks)
        }
        Err(TreeFault::TooLarge) => marks_of(alloc, table.stops(), true),
        Err(TreeFault::Memory) => Err(AllocError),
    }
}
