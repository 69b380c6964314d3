//! A walk through a tree, pair by pair.

ghost use Rattle.std.specs.Prelude.{◌≡◌, ◌+◌, ◌≤◌, map, length};
ghost use Rattle.pattern_tree.specs.Forest.{Pair, pairs, forest, levels};
ghost use Rattle.pattern_tree.specs.Branch.{branches};
ghost use Rattle.pattern_tree.specs.Walks.{ShownAll, ending, after};

use crate::node::Node;
use arrayvec::ArrayVec;
use std::alloc::Allocator;
use timetable::StopId;

/// What a walk shows its pairs to.
pub trait Visitor {
    /// Before it is shown a pair, the pair, and afterwards.
    ghost shows: { Self → Pair → Self → Type 0 };

    /// Takes the pair of a path, of at most 8 rides, and an end.
    fn visit(&mut self, path: &[(StopId, StopId)], end: StopId)
        requires { length path.now ≤ 8 }
        ensures { shows self.old (path.now, end) self.new };
}

/// Shows the pair of `path` and each of `ends`.
fn walk_ends<V: Visitor>(path: &[(StopId, StopId)], ends: &[StopId], visitor: &mut V)
    requires { length path.now ≤ 8 }
    ensures { ShownAll V.shows visitor.old (map (ending path.now) ends.now) visitor.new }
{
    for end in ends {
        visitor.visit(path, *end);
    }
}

/// Shows the pairs of `level` and all below it, their paths after `path`, which is as before in the end.
pub(crate) fn walk_level<A: Allocator, V: Visitor>(
    level: &[Node<A>],
    path: &mut ArrayVec<(StopId, StopId), 8>,
    visitor: &mut V,
)
    requires { length path.old.items + levels (forest (branches level.now)) ≤ 8 }
    ensures path { path.new.items ≡ path.old.items }
    ensures shown { ShownAll V.shows visitor.old (map (after path.old.items) (pairs (forest (branches level.now)))) visitor.new }
{
    for node in level {
        path.push((node.board, node.alight));
        walk_ends(path.as_slice(), &node.ends, visitor);
        walk_level(&node.next, path, visitor);
        path.pop();
    }
}
