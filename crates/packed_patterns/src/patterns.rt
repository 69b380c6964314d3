//! The patterns of a source, by the stops at which they end.

ghost use Rattle.std.specs.Prelude.{◌≡◌, ◌↔◌, IfOk, IsTrue, List};
ghost use Rattle.std.specs.List.{Contains};
ghost use Rattle.std.specs.List.Sorted.{IsPermutation};
ghost use Rattle.pattern_tree.specs.Forest.{Step};
ghost use Rattle.packed_patterns.specs.Patterns.{IsFirstOther, paths_of};

use crate::packing::{Beginning, Pattern, pack_level, rides_of};
use crate::sorting::sorted;
use pattern_tree::PatternTree;
use std::alloc::{AllocError, Allocator, Global};
use std::marker::Model;
use timetable::StopId;

// The index of the first pattern that doesn't end at the stop, or how many patterns there are. Few end at one stop, and they lie
// side by side. A look at each takes less time than a binary search among all that end at later stops.
fn first_other(patterns: &[Pattern], end: StopId) -> usize
    ensures { IsFirstOther patterns.now end result }
{
    for (index, pattern) in patterns.iter().enumerate() {
        if pattern.end != end {
            return index;
        }
    }
    patterns.len()
}

// Whether two paths are equal.
fn are_equal(one: &[(StopId, StopId)], other: &[(StopId, StopId)]) -> bool
    ensures { IsTrue result ↔ (one.now ≡ other.now) }
{
    one == other
}

/// The patterns that end at a stop, and the beginnings that have their rides.
#[derive(Clone, Copy)]
pub struct Ending<'a> {
    pub beginnings: &'a [Beginning],
    pub patterns: &'a [Pattern],
}

/// The patterns of a source's tree, by the stops at which they end: a tree as it is asked. Beginnings that patterns share are kept once, as
/// in the tree. A question reads the patterns that end at its stop, and their beginnings.
#[derive(Drop)]
pub struct Patterns<A: Allocator = Global> {
    source: StopId,
    beginnings: Vec<Beginning, A>,
    by_end: Vec<Pattern, A>,
}

impl<A: Allocator> Model for Patterns<A> {
    ghost use Rattle.pattern_tree.specs.Content.{Content};
    ghost use Rattle.packed_patterns.specs.Patterns.{AreByEnd, pairs_of};

    ghost Value = { Content };

    ghost view = { λ p. record { source = p.source; pairs = pairs_of p.beginnings.items p.by_end.items } };

    ghost invariant = { λ p. AreByEnd p.by_end.items };
}

impl<A: Allocator> Patterns<A> {
    /// The stop at which the patterns' journeys begin.
    pub fn source(&self) -> StopId
        ensures { result ≡ self.now.source }
    {
        self.source
    }

    /// The patterns that end at a stop.
    pub fn ending_at(&self, end: StopId) -> Ending<'_>
        ensures { (path : List Step)
            → Contains (paths_of result.beginnings.now result.patterns.now) path ↔ Contains self.now.pairs (path, end) }
    {
        let from = self.by_end.partition_point(|pattern| pattern.end < end);
        let rest = &self.by_end[from..];
        Ending {
            beginnings: self.beginnings.as_slice(),
            patterns: &rest[..first_other(rest, end)],
        }
    }

    /// Whether there is a pattern of this path that ends at the stop.
    pub fn contains(&self, path: &[(StopId, StopId)], end: StopId) -> bool
        ensures { IsTrue result ↔ Contains self.now.pairs (path.now, end) }
    {
        let ending = self.ending_at(end);
        for pattern in ending.patterns {
            if are_equal(&rides_of(ending.beginnings, pattern.last), path) {
                return true;
            }
        }
        false
    }
}

impl<A: Allocator + Clone> Patterns<A> {
    /// The patterns of a tree, in the memory of `alloc`. The only fault is that memory ran out.
    pub fn of<B: Allocator>(alloc: A, tree: &PatternTree<B>) -> Result<Patterns<A>, AllocError>
        ensures source { IfOk result (λ patterns. patterns.source ≡ tree.now.source) }
        ensures pairs { IfOk result (λ patterns. IsPermutation tree.now.pairs patterns.pairs) }
    {
        let mut beginnings = Vec::with_capacity(alloc.clone()?, tree.nodes() as usize)?;
        let mut patterns = Vec::with_capacity(alloc, tree.ends() as usize)?;
        pack_level(tree.first(), 0, &mut beginnings, &mut patterns)?;
        Ok(Patterns {
            source: tree.source(),
            beginnings,
            by_end: sorted(patterns)?,
        })
    }
}
