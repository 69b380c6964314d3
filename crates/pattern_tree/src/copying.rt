//! Copies in another allocator.

ghost use Rattle.std.specs.Prelude.{◌≡◌, IfOk};
ghost use Rattle.pattern_tree.specs.Branch.{branches};

use crate::node::Node;
use std::alloc::{AllocError, Allocator};

/// The nodes of `level` and all below them, in the memory of `alloc`.
pub(crate) fn copy_level<A: Allocator, B: Allocator + Clone>(
    alloc: &B,
    level: &[Node<A>],
) -> Result<Vec<Node<B>, B>, AllocError>
    ensures { IfOk result (λ v. branches v.items ≡ branches level.now) }
{
    let mut copies = Vec::with_capacity(alloc.clone()?, level.len())?;
    for node in level {
        let ends = Vec::from_slice(alloc.clone()?, &node.ends)?;
        let next = copy_level(alloc, &node.next)?;
        copies.push(Node {
            board: node.board,
            alight: node.alight,
            ends,
            next,
        })?;
    }
    Ok(copies)
}
