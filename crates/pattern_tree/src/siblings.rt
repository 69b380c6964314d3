//! Steps among siblings and ends among ends, by binary search.

ghost use Rattle.std.specs.Prelude.{◌↔◌, IsTrue};
ghost use Rattle.pattern_tree.specs.Forest.{Rises, step_of};
ghost use Rattle.pattern_tree.specs.Paths.{IsIn};
ghost use Rattle.pattern_tree.specs.Branch.{branch, branches};
ghost use Rattle.pattern_tree.specs.Siblings.{StepsRise, IsIndexOf, IsOrderOf};

use crate::node::Node;
use std::alloc::Allocator;
use std::cmp::Ordering;
use timetable::StopId;

/// How the step of `node` compares with another: by the stop of boarding, then by that of alighting.
fn order_of<A: Allocator>(node: &Node<A>, step: &(StopId, StopId)) -> Ordering
    ensures { IsOrderOf (step_of (branch node.now)) step.now result }
{
    match node.board.cmp(&step.0) {
        Ordering::Less => Ordering::Less,
        Ordering::Equal => node.alight.cmp(&step.1),
        Ordering::Greater => Ordering::Greater,
    }
}

/// The index of a step among siblings: where it is, or where it would go.
pub(crate) fn index_of<A: Allocator>(
    level: &[Node<A>],
    step: &(StopId, StopId),
) -> Result<usize, usize>
    requires { StepsRise (branches level.now) }
    ensures { IsIndexOf (branches level.now) step.now result }
{
    let mut low = 0;
    let mut high = level.len();
    while low < high {
        let middle = low + (high - low) / 2;
        match order_of(&level[middle], step) {
            Ordering::Less => low = middle + 1,
            Ordering::Equal => return Ok(middle),
            Ordering::Greater => high = middle,
        }
    }
    Err(low)
}

/// Whether `end` is among ends that rise.
pub(crate) fn has_end(ends: &[StopId], end: StopId) -> bool
    requires { Rises ends.now }
    ensures { IsTrue result ↔ IsIn end ends.now }
{
    ends.binary_search(&end).is_ok()
}
