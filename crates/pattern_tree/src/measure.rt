//! How deep a tree is.

ghost use Rattle.std.specs.Prelude.{◌≡◌, ◌≤◌};
ghost use Rattle.pattern_tree.specs.Forest.{forest, levels};
ghost use Rattle.pattern_tree.specs.Branch.{branches};

use crate::node::Node;
use std::alloc::Allocator;

/// How many levels there are from `level` on.
pub(crate) fn depth_of<A: Allocator>(level: &[Node<A>]) -> usize
    requires { levels (forest (branches level.now)) ≤ 8 }
    ensures { result ≡ levels (forest (branches level.now)) }
{
    let mut deepest = 0;
    for node in level {
        let mut below = 0;
        if !node.next.is_empty() {
            below = depth_of(&node.next);
        }
        deepest = deepest.max(below + 1);
    }
    deepest
}
