//! Trees of a store that are kept as they are.

ghost use Rattle.std.specs.Prelude.{◌≡◌};
ghost use Rattle.section_store.specs.Sources.{is_among};
ghost use Rattle.recovery.specs.Reading.{wants};

use crate::keeper::Keeper;
use pattern_tree::PatternTree;
use std::alloc::{AllocError, Allocator, Global};
use timetable::StopId;

/// All trees, or only those of these stops.
#[derive(Clone, Copy)]
pub(crate) enum Wanted<'a> {
    All,
    Of(&'a [StopId]),
}

// Whether the stop is among these.
fn has(stops: &[StopId], stop: StopId) -> bool
    ensures { result ≡ is_among stop stops.now }
{
    stops.iter().any(|other| *other == stop)
}

impl<'a> Wanted<'a> {
    /// Whether the tree of that source is kept.
    pub(crate) fn wants(&self, source: StopId) -> bool
        ensures { result ≡ wants self.now source }
    {
        match self {
            Wanted::All => true,
            Wanted::Of(stops) => has(stops, source),
        }
    }
}

/// The trees that are wanted, in storing order.
#[derive(Drop)]
pub(crate) struct Kept<'a> {
    pub(crate) alloc: Global,
    pub(crate) wanted: Wanted<'a>,
    pub(crate) trees: Vec<PatternTree>,
}

impl<'a> Keeper for Kept<'a> {
    ghost use Rattle.recovery.specs.Reading.{KeepsWanted};

    ghost takes = { KeepsWanted };

    fn take<A: Allocator>(&mut self, tree: &PatternTree<A>) -> Result<(), AllocError> {
        if !self.wanted.wants(tree.source()) {
            return Ok(());
        }
        let Ok(copy) = tree.copy_to(self.alloc) else {
            return Err(AllocError);
        };
        self.trees.push(copy)?;
        Ok(())
    }
}
