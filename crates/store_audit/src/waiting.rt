//! The trees of a store that wait for their audits.

use crate::due::Due;
use pattern_tree::PatternTree;
use recovery::Keeper;
use std::alloc::{AllocError, Allocator, Global};
use std::mem;

/// The trees of a store, packed as they are asked, in the order in which they came: batches of `size` trees, and those after them.
#[derive(Drop)]
pub(crate) struct Waiting {
    pub(crate) alloc: Global,
    pub(crate) size: usize,
    pub(crate) whole: Vec<Vec<Due>>,
    pub(crate) last: Vec<Due>,
}

impl Keeper for Waiting {
    ghost use Rattle.store_audit.specs.Hands.{HoldsMore};

    ghost takes = { HoldsMore };

    fn take<A: Allocator>(&mut self, tree: &PatternTree<A>) -> Result<(), AllocError> {
        self.last.push(Due::of(self.alloc, tree)?)?;
        if self.last.len() < self.size {
            return Ok(());
        }
        let batch = mem::replace(&mut self.last, Vec::new(self.alloc));
        self.whole.push(batch)?;
        Ok(())
    }
}
