//! The pattern tree of a source.

ghost use Rattle.std.specs.Prelude.{◌≡◌, ◌≢◌, ◌<◌, ◌≤◌, [], ◌↔◌, ◌⊎◌, false, Ok, Err, IsTrue, IfOk, OnOk, OnErr, MatchResult, length};
ghost use Rattle.std.specs.List.{Contains, AllPairs};
ghost use Rattle.pattern_tree.specs.Forest.{Pair, pairs, forest, node_count, end_count, levels, IsOrdered};
ghost use Rattle.pattern_tree.specs.Branch.{branches};
ghost use Rattle.pattern_tree.specs.Walks.{ShownAll};
ghost use Rattle.pattern_tree.specs.Content.{IsTree, IsTooLarge, beginnings, longest};

use crate::copying::copy_level;
use crate::fault::TreeFault;
use crate::growth::add;
use crate::measure::depth_of;
use crate::node::Node;
use crate::search::{holds, missing};
use crate::walking::{Visitor, walk_level};
use arrayvec::ArrayVec;
use std::alloc::{Allocator, Global};
use std::marker::Model;
use timetable::StopId;

/// How many nodes a tree has at most.
pub const MOST_NODES: u32 = 1_000_000;

/// How many ends a tree has at most.
pub const MOST_ENDS: u32 = 16_000_000;

/// The patterns of journeys from a source, with the stops at which each ends: a set of pairs (path, end). A path is the stops of boarding
/// and alighting of 1 to 8 rides.
#[derive(Drop)]
pub struct PatternTree<A: Allocator = Global> {
    source: StopId,
    nodes: u32,
    ends: u32,
    first: Vec<Node<A>, A>,
}

impl<A: Allocator> Model for PatternTree<A> {
    ghost use Rattle.pattern_tree.specs.Content.{Content, IsTree};
    ghost use Rattle.pattern_tree.specs.Forest.{pairs, forest};
    ghost use Rattle.pattern_tree.specs.Branch.{branches};

    ghost Value = { Content };

    ghost view = { λ t. record { source = t.source; pairs = pairs (forest (branches t.first.items)) } };

    ghost invariant = { λ t. IsTree t.nodes t.ends (forest (branches t.first.items)) };
}

impl<A: Allocator> PatternTree<A> {
    /// The tree of a source without patterns. It takes no memory.
    pub fn new_in(alloc: A, source: StopId) -> Self
        ensures { result ≡ record { source = source; pairs = [] } }
    {
        PatternTree {
            source,
            nodes: 0,
            ends: 0,
            first: Vec::new(alloc),
        }
    }

    /// The tree of a source with these first nodes: siblings and ends rise, no node lacks both ends and later rides,
    /// there are at most 8 levels, and the counts are those of all nodes and ends and within their limits.
    pub fn from_nodes(source: StopId, nodes: u32, ends: u32, first: Vec<Node<A>, A>) -> Self
        requires { IsTree nodes ends (forest (branches first.items)) }
        ensures { result ≡ record { source = source; pairs = pairs (forest (branches first.items)) } }
    {
        PatternTree {
            source,
            nodes,
            ends,
            first,
        }
    }

    /// The nodes of the patterns' first rides, by rising stops of boarding, then of alighting; and so at each level.
    pub fn first(&self) -> &[Node<A>]
        ensures content { pairs (forest (branches result.now)) ≡ self.now.pairs }
        ensures ordered { IsOrdered (forest (branches result.now)) }
        ensures not_deep { levels (forest (branches result.now)) ≤ 8 }
        ensures few_nodes { node_count (forest (branches result.now)) ≤ MOST_NODES }
        ensures few_ends { end_count (forest (branches result.now)) ≤ MOST_ENDS }
    {
        self.first.as_slice()
    }

    /// The stop at which the patterns' journeys begin.
    pub fn source(&self) -> StopId
        ensures { result ≡ self.now.source }
    {
        self.source
    }

    /// How many nodes there are: one for each different beginning of the paths.
    pub fn nodes(&self) -> u32
        ensures { result ≡ beginnings self.now.pairs }
    {
        self.nodes
    }

    /// How many ends there are: one for each pair.
    pub fn ends(&self) -> u32
        ensures { result ≡ length self.now.pairs }
    {
        self.ends
    }

    /// How many rides the longest path has; 0 if there is none.
    pub fn depth(&self) -> usize
        ensures rides { result ≡ longest self.now.pairs }
        ensures few { result ≤ 8 }
    {
        depth_of(&self.first)
    }

    /// Whether the pair of `path` and `end` is in the tree. It takes no memory.
    pub fn contains(&self, path: &[(StopId, StopId)], end: StopId) -> bool
        ensures { IsTrue result ↔ Contains self.now.pairs (path.now, end) }
    {
        holds(&self.first, path, end)
    }

    /// Shows each pair to `visitor`, once: the ends of a path by rising numbers, then the paths that go on from it, by
    /// rising stops of boarding, then of alighting. It takes no memory.
    pub fn walk<V: Visitor>(&self, visitor: &mut V)
        ensures shown { ShownAll V.shows visitor.old self.now.pairs visitor.new }
        ensures once { AllPairs (λ p q. p ≢ q) self.now.pairs }
    {
        let mut path = ArrayVec::new();
        walk_level(&self.first, &mut path, visitor);
    }

    /// A tree of the same source and pairs, in the memory of `alloc`. The only fault is that memory ran out.
    pub fn copy_to<B: Allocator + Clone>(&self, alloc: B) -> Result<PatternTree<B>, TreeFault>
        ensures { MatchResult result (λ tree. tree ≡ self.now) (λ fault. fault ≡ TreeFault.Memory) }
    {
        Ok(PatternTree {
            source: self.source,
            nodes: self.nodes,
            ends: self.ends,
            first: copy_level(&alloc, &self.first)?,
        })
    }
}

impl<A: Allocator + Clone> PatternTree<A> {
    /// Puts the pair of `path`, of 1 to 8 rides, and `end` in, and says whether it is new. A pair that is there takes no
    /// memory. TooLarge comes if the pair is new and a count would pass its limit, whatever memory there is.
    pub fn insert(&mut self, path: &[(StopId, StopId)], end: StopId) -> Result<bool, TreeFault>
        requires some { 0 < length path.now }
        requires short { length path.now ≤ 8 }
        ensures source { self.new.source ≡ self.old.source }
        ensures there { Contains self.old.pairs (path.now, end) → result ≡ Ok false }
        ensures new { IfOk result (λ new. IsTrue new ↔ ¬ Contains self.old.pairs (path.now, end)) }
        ensures added { OnOk result ((p : Pair) → Contains self.new.pairs p ↔ (Contains self.old.pairs p ⊎ (p ≡ (path.now, end)))) }

        // Every other fault is that memory ran out.
        ensures large { (result ≡ Err TreeFault.TooLarge) ↔ IsTooLarge self.old.pairs (path.now, end) }
        ensures unchanged { OnErr result (self.new ≡ self.old) }
        ensures once { AllPairs (λ p q. p ≢ q) self.new.pairs }
    {
        let Some((step, later)) = path.split_first() else {
            return Ok(false);
        };
        if holds(&self.first, path, end) {
            return Ok(false);
        }
        let fresh = missing(&self.first, step, later) as u32;
        if fresh > MOST_NODES - self.nodes || self.ends == MOST_ENDS {
            return Err(TreeFault::TooLarge);
        }
        add(&mut self.first, step, later, end)?;
        self.nodes += fresh;
        self.ends += 1;
        Ok(true)
    }
}
