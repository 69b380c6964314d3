//! The second pass over the trees of several sources.

ghost use Rattle.std.specs.Prelude.{ℕ};
ghost use Rattle.std.specs.List.{Contains};
ghost use Rattle.pattern_tree.specs.Content.{Content};
ghost use Rattle.pattern_query.specs.BestSoFar.{IsSearched};
ghost use Rattle.pattern_query.specs.Gathered.{IsPointTo};
ghost use Rattle.pattern_query.specs.Leaving.{AreJourneys, LeaveLast};
ghost use Rattle.pattern_query.specs.Questions.{IsAsked, IsAskedPoint};

use crate::trees::Trees;
use crate::{BestSoFar, Patterns};
use direct_connections::Network;
use timetable::StopId;

// Puts in place of the journeys those of the patterns to each of the stops that are preferred.
fn leave_last_to(
    network: &Network,
    patterns: &Patterns,
    tos: &[StopId],
    depart: u32,
    best: &mut BestSoFar,
)
    requires each { AreJourneys network.now depart best.old }
    requires searched { (t : ℕ) → Contains tos.now t → IsSearched network.now patterns.now t depart best.old }
    ensures { LeaveLast network.now (IsPointTo network.now patterns.now tos.now depart) best.old best.new }
{
    for to in tos {
        best.leave_last(network, patterns, *to, depart);
    }
}

/// Puts in place of each journey that of the trees of the first stops to the others, at the moment or later, which has the same numbers
/// and leaves last, and of those that leave as late walks least. All these trees were searched before. It takes no memory.
pub fn leave_last<T: Trees>(
    network: &Network,
    trees: &T,
    froms: &[StopId],
    tos: &[StopId],
    depart: u32,
    best: &mut BestSoFar,
)
    requires each { AreJourneys network.now depart best.old }
    requires searched { (tree : Content) (t : ℕ) → IsAsked (T.held trees.now) froms.now tos.now tree t
        → IsSearched network.now tree t depart best.old }
    ensures { LeaveLast network.now (IsAskedPoint network.now (T.held trees.now) froms.now tos.now depart) best.old best.new }
{
    for source in froms {
        let Some(patterns) = trees.patterns(*source) else {
            continue;
        };
        leave_last_to(network, patterns, tos, depart, best);
    }
}
