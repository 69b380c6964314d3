//! Compares trees by all that they have.

ghost use Rattle.std.specs.Prelude.{◌≡◌, ◌↔◌, IsTrue, IfOk};
ghost use mathlib.Core.List.{IsPrefix};

use pattern_tree::PatternTree;
use std::alloc::{AllocError, Global};
use tree_codec::encode;
use tree_codec::laws::{one_text, texts_apart};

// Whether these are the same bytes.
fn same_bytes(left: &[u8], right: &[u8]) -> bool
    ensures { IsTrue result ↔ left.now ≡ right.now }
{
    left == right
}

// Whether the trees have the same source and the same pairs. Their texts are made in the two buffers.
fn is_same(
    tree: &PatternTree,
    other: &PatternTree,
    left: &mut Vec<u8>,
    right: &mut Vec<u8>,
) -> Result<bool, AllocError>
    ensures { IfOk result (λ same. IsTrue same ↔ tree.now ≡ other.now) }
{
    texts_apart();
    one_text();
    left.clear();
    right.clear();
    encode(tree, left)?;
    encode(other, right)?;
    Ok(same_bytes(left, right))
}

/// Whether the trees begin with the front, tree by tree. It fails only if memory runs out.
pub(crate) fn begin_with(
    alloc: Global,
    trees: &[PatternTree],
    front: &[PatternTree],
) -> Result<bool, AllocError>
    ensures { IfOk result (λ begin. IsTrue begin ↔ IsPrefix front.now trees.now) }
{
    if front.len() > trees.len() {
        return Ok(false);
    }
    let mut left = Vec::new(alloc);
    let mut right = Vec::new(alloc);
    for i in 0..front.len() {
        if !is_same(&trees[i], &front[i], &mut left, &mut right)? {
            return Ok(false);
        }
    }
    Ok(true)
}
