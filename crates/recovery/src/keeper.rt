//! Who is given the trees of a store.

ghost use Rattle.std.specs.Prelude.{◌≡◌, OnOk};
ghost use Rattle.pattern_tree.specs.Content.{Content};

use pattern_tree::PatternTree;
use std::alloc::{AllocError, Allocator};

/// Who is given the trees of a store one by one, in storing order, each as soon as it is read. Of each it keeps what it wants. So only one
/// tree is in memory at a time, beside what is kept.
pub trait Keeper {
    /// What one tree makes of it: the keeper before, the tree, and the keeper after.
    ghost takes: { Self → Content → Self → Type 0 };

    /// Takes of a tree what it wants; the tree is let go then. It fails only if memory runs out.
    fn take<A: Allocator>(&mut self, tree: &PatternTree<A>) -> Result<(), AllocError>
        ensures { OnOk result (takes self.old tree.now self.new) };
}

/// Who keeps nothing.
#[derive(Clone, Copy, Debug)]
pub struct Nobody;

impl Keeper for Nobody {
    ghost takes = { λ old _ new. new ≡ old };

    fn take<A: Allocator>(&mut self, _tree: &PatternTree<A>) -> Result<(), AllocError> {
        Ok(())
    }
}
