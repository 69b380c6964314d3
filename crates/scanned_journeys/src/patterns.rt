//! The patterns of the best journeys to a stop, from the rounds.

ghost use Rattle.std.specs.Prelude.{◌≡◌, ◌≢◌, ◌<◌, ◌≤◌, ◌↔◌, ◌⊎◌, IfOk, OnOk, length};
ghost use Rattle.std.specs.List.{AllPairs, Contains};
ghost use Rattle.pattern_tree.specs.Content.{IsTooLarge};
ghost use Rattle.pattern_tree.specs.Forest.{Pair};
ghost use Rattle.rounds.specs.Scratch.{rounds_of};
ghost use Rattle.scanned_journeys.specs.Patterns.{AreCounted, HasPatterns};

use pattern_query::Patterns;
use pattern_tree::{PatternTree, TreeFault};
use rounds::RoundView;
use std::alloc::{AllocError, Global};
use timetable::{Rides, StopId};

// Puts in a pattern that a tree has room for.
fn put(tree: &mut PatternTree, path: &[(StopId, StopId)], end: StopId) -> Result<(), AllocError>
    requires some { 0 < length path.now }
    requires short { length path.now ≤ 8 }
    requires room { ¬ IsTooLarge tree.old.pairs (path.now, end) }
    ensures source { tree.new.source ≡ tree.old.source }
    ensures once { AllPairs (λ p q. p ≢ q) tree.new.pairs }
    ensures added { OnOk result ((p : Pair) → Contains tree.new.pairs p ↔ (Contains tree.old.pairs p ⊎ (p ≡ (path.now, end)))) }
{
    match tree.insert(path, end) {
        Ok(_) => Ok(()),
        Err(TreeFault::Memory) => Err(AllocError),
        Err(TreeFault::TooLarge) => unreachable!(),
    }
}

/// The patterns of the best journeys of one to `rides` rides to a stop, as the rounds from a source have them. It fails only if memory runs
/// out.
pub(crate) fn patterns_to(
    alloc: Global,
    view: &RoundView<'_>,
    source: StopId,
    to: StopId,
    rides: Rides,
) -> Result<Patterns, AllocError>
    requires count { length (rounds_of view.now) ≡ rides }
    requires counted { AreCounted (rounds_of view.now) to rides }
    ensures source { IfOk result (λ patterns. patterns.source ≡ source) }
    ensures patterns { IfOk result (λ patterns. HasPatterns (rounds_of view.now) to rides patterns.pairs) }
{
    let mut tree = PatternTree::new_in(alloc, source);
    for round in 0..rides.number() {
        if let Some(path) = view.pattern(round + 1, to) {
            put(&mut tree, path.as_slice(), to)?;
        }
    }
    Patterns::of(alloc, &tree)
}
