//! What a tree has of a path.

ghost use Rattle.std.specs.Prelude.{◌≡◌, ◌+◌, ◌<◌, ◌≤◌, ◌↔◌, IsTrue, length};
ghost use Rattle.pattern_tree.specs.Forest.{forest, IsOrdered};
ghost use Rattle.pattern_tree.specs.Paths.{Has};
ghost use Rattle.pattern_tree.specs.Branch.{branches};
ghost use Rattle.pattern_tree.specs.Added.{missing_count};

use crate::node::Node;
use crate::siblings::{has_end, index_of};
use std::alloc::Allocator;
use timetable::StopId;

/// Whether `path` leads to a node below `level` that has `end`.
pub(crate) fn holds<A: Allocator>(level: &[Node<A>], path: &[(StopId, StopId)], end: StopId) -> bool
    requires { IsOrdered (forest (branches level.now)) }
    ensures { IsTrue result ↔ Has path.now end (forest (branches level.now)) }
{
    let Some((step, later)) = path.split_first() else {
        return false;
    };
    let Ok(at) = index_of(level, step) else {
        return false;
    };
    let node = &level[at];
    if later.is_empty() {
        has_end(&node.ends, end)
    } else {
        holds(&node.next, later, end)
    }
}

/// How many of `step` and `later` have no node.
pub(crate) fn missing<A: Allocator>(
    level: &[Node<A>],
    step: &(StopId, StopId),
    later: &[(StopId, StopId)],
) -> usize
    requires ordered { IsOrdered (forest (branches level.now)) }
    requires short { length later.now < 8 }
    ensures count { result ≡ missing_count step.now later.now (forest (branches level.now)) }
    ensures bound { result ≤ length later.now + 1 }
{
    let Ok(at) = index_of(level, step) else {
        return later.len() + 1;
    };
    let Some((below, rest)) = later.split_first() else {
        return 0;
    };
    missing(&level[at].next, below, rest)
}
