//! The search for a path that walks less.

ghost use Rattle.std.specs.Prelude.{◌≡◌, ◌<◌, ◌≤◌, [], length, IfOk, IfSome, IfNone};
ghost use Rattle.std.specs.List.{All, Contains};
ghost use Rattle.timetable.specs.Table.{stops_of};
ghost use Rattle.rounds.specs.Answers.{AreRounds};
ghost use Rattle.rounds.specs.Scratch.{rounds_of};
ghost use Rattle.pattern_query.specs.Leaving.{walked};
ghost use Rattle.least_walks.specs.Least.{IsPathLike, WalksAtLeast};

use crate::boarding::boards_of;
use crate::layers::{last_walks, one_ride_more};
use crate::path::path_of;
use crate::walking::hops_from;
use crate::way::Way;
use direct_connections::Network;
use pattern_query::Point;
use rounds::{Path, RoundView};
use std::alloc::{AllocError, Global};

// The first of the ways that has the least on foot.
fn least(ways: &[Way]) -> Option<&Way>
    ensures some { IfSome result (λ way. Contains ways.now way.now × All (λ w. way.now.walked ≤ w.walked) ways.now) }
    ensures none { IfNone result (ways.now ≡ []) }
{
    let mut least = ways.first()?;
    for way in ways {
        if way.walked() < least.walked() {
            least = way;
        }
    }
    Some(least)
}

/// The path along which one who leaves with the point has the least on foot, of those with as many rides along which one is there no later,
/// if that is less than `bound`. The rounds are those from the point's stop at its departure. It fails only if memory runs out.
///
/// It goes backward from the end, ride by ride. At each stop it keeps the ways on of which no other can be taken as late with no more on
/// foot. A way that one can't take after the rides before it is left out: the rounds say when one can be there at the earliest.
pub(crate) fn shorter_path(
    alloc: Global,
    network: &Network,
    view: &RoundView<'_>,
    point: &Point,
    bound: u32,
) -> Result<Option<Path>, AllocError>
    requires from { point.now.from < stops_of network.now }
    requires some { 1 ≤ point.now.rides }
    requires short { point.now.rides ≤ 8 }
    requires few { point.now.rides ≤ length (rounds_of view.now) }
    requires rounds { AreRounds network.now point.now.from point.now.departure (length (rounds_of view.now)) (rounds_of view.now) }
    ensures like { IfOk result (λ found. IfSome found (λ path. IsPathLike network.now point.now path.items)) }
    ensures least { IfOk result (λ found. IfSome found (λ path.
        WalksAtLeast network.now point.now (walked network.now point.now.from path.items point.now.to))) }
    ensures none { IfOk result (λ found. IfNone found (WalksAtLeast network.now point.now bound)) }
{
    let count = point.rides();
    let mut alights = last_walks(alloc, network, point.to(), point.arrival(), bound)?;
    for more in 1..count {
        alights = one_ride_more(alloc, network, view, count - more, &alights, bound)?;
    }
    let boards = boards_of(alloc, network, &alights, bound)?;
    let depart = point.departure();
    let ways = hops_from(alloc, network, false, point.from(), &boards, depart, bound)?;
    match least(ways.row()) {
        Some(way) => Ok(Some(path_of(way.path()))),
        None => Ok(None),
    }
}
