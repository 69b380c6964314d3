//! Trees of a store, as a board shows them.

use board::SharedPatterns;
use pattern_tree::PatternTree;
use recovery::Keeper;
use std::alloc::{AllocError, Allocator, Global};

/// The trees of a store, as a board shows them: each is made so as soon as it is read.
#[derive(Drop)]
pub(crate) struct Sharing {
    pub(crate) alloc: Global,
    pub(crate) trees: Vec<SharedPatterns>,
}

impl Keeper for Sharing {
    ghost use Rattle.planner.specs.Sharing.{SharesTree};

    ghost takes = { SharesTree };

    fn take<A: Allocator>(&mut self, tree: &PatternTree<A>) -> Result<(), AllocError> {
        let patterns = SharedPatterns::of(self.alloc, tree)?;
        self.trees.push(patterns)?;
        Ok(())
    }
}
