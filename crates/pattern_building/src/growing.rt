//! A tree that is being built.

ghost use Rattle.std.specs.Prelude.{◌≡◌, ◌≢◌, ◌<◌, ◌≤◌, [], ◌↔◌, ◌⊎◌, Err, IfOk, OnOk, OnErr, length};
ghost use Rattle.std.specs.List.{Contains, AllPairs};
ghost use Rattle.pattern_tree.specs.Forest.{Pair};
ghost use Rattle.pattern_tree.specs.Content.{IsTooLarge};

use crate::latest::Latest;
use pattern_tree::{PatternTree, TreeFault};
use std::alloc::{AllocError, Allocator, Global};
use std::marker::Model;
use timetable::StopId;

/// The tree of a source that is being built. One of the two pairs that were put in last for a number of rides and a stop is mostly the one
/// that comes next. They are remembered and then not looked for again.
#[derive(Drop)]
pub(crate) struct GrowingTree<A: Allocator> {
    tree: PatternTree<A>,
    latest: Latest,
}

impl<A: Allocator> Model for GrowingTree<A> {
    ghost use Rattle.pattern_tree.specs.Content.{Content};
    ghost use Rattle.pattern_building.specs.Latest.{AreIn};

    ghost Value = { Content };

    ghost view = { λ t. t.tree };

    ghost invariant = { λ t. AreIn t.tree.pairs t.latest };
}

impl<A: Allocator + Clone> GrowingTree<A> {
    /// The tree of a source without patterns, in the memory of `alloc`. What is remembered lies in that of `global`: of paths of up to
    /// `rides` rides between `stops` stops.
    pub(crate) fn new(
        alloc: A,
        global: Global,
        source: StopId,
        rides: usize,
        stops: usize,
    ) -> Result<Self, AllocError>
        ensures { IfOk result (λ tree. tree ≡ record { source = source; pairs = [] }) }
    {
        Ok(GrowingTree {
            tree: PatternTree::new_in(alloc, source),
            latest: Latest::empty(global, rides, stops)?,
        })
    }

    /// Puts the pair of `path`, of one to eight rides, and `end` in. TooLarge comes only if the pair is new and a count would pass its
    /// limit; every other fault is that memory ran out.
    pub(crate) fn insert(&mut self, path: &[(StopId, StopId)], end: StopId) -> Result<(), TreeFault>
        requires some { 0 < length path.now }
        requires short { length path.now ≤ 8 }
        ensures source { self.new.source ≡ self.old.source }
        ensures added { OnOk result ((p : Pair) → Contains self.new.pairs p ↔ (Contains self.old.pairs p ⊎ (p ≡ (path.now, end)))) }
        ensures large { result ≡ Err TreeFault.TooLarge → IsTooLarge self.old.pairs (path.now, end) }
        ensures unchanged { OnErr result (self.new ≡ self.old) }
        ensures once { AllPairs (λ p q. p ≢ q) self.old.pairs → AllPairs (λ p q. p ≢ q) self.new.pairs }
    {
        if self.latest.has(path, end) {
            return Ok(());
        }
        self.tree.insert(path, end)?;
        self.latest.put(path, end);
        Ok(())
    }

    /// The tree.
    pub(crate) fn into_tree(self) -> PatternTree<A>
        ensures { result ≡ self }
    {
        self.tree
    }
}
