//! The journey that walks least.

ghost use Rattle.std.specs.Prelude.{◌≡◌, ℕ, ◌<◌, ◌≤◌, ◌↔◌, IfOk, length};
ghost use Rattle.std.specs.List.{Contains};
ghost use Rattle.pattern_tree.specs.Forest.{Pair};
ghost use Rattle.timetable.specs.Table.{stops_of};
ghost use Rattle.timetable.specs.Journeys.{Reaches, Unbeaten};
ghost use Rattle.rounds.specs.Scratch.{IsMadeFor, IsAlike, rides_of};
ghost use Rattle.pattern_query.specs.Answer.{numbers, IsJourney};
ghost use Rattle.pattern_query.specs.Leaving.{walked, on_foot};
ghost use Rattle.least_walks.specs.Least.{IsLeastLike, IsPathLike};

use crate::search::shorter_path;
use direct_connections::Network;
use pattern_query::{Patterns, Point, ask_any, walk_of};
use pattern_tree::{PatternTree, TreeFault};
use rounds::Scratch;
use std::alloc::{AllocError, Global};
use timetable::{LATEST_MOMENT, StopId};

// Only the patterns of this path.
fn patterns_of(
    alloc: Global,
    from: StopId,
    path: &[(StopId, StopId)],
    to: StopId,
) -> Result<Patterns, AllocError>
    requires some { 0 < length path.now }
    requires short { length path.now ≤ 8 }
    ensures source { IfOk result (λ patterns. patterns.source ≡ from) }
    ensures pairs { IfOk result (λ patterns. (p : Pair) → Contains patterns.pairs p ↔ (p ≡ (path.now, to))) }
{
    let mut tree = PatternTree::new_in(alloc, from);
    match tree.insert(path, to) {
        Ok(_) => Patterns::of(alloc, &tree),
        Err(TreeFault::Memory) => Err(AllocError),
        Err(TreeFault::TooLarge) => unreachable!(),
    }
}

// The journey along the path that has the numbers of the point.
fn journey_along(
    alloc: Global,
    network: &Network,
    path: &[(StopId, StopId)],
    point: &Point,
) -> Result<Point, AllocError>
    requires short { length path.now ≤ 8 }
    requires early { point.now.departure ≤ LATEST_MOMENT }
    requires some { 1 ≤ point.now.rides }
    requires like { IsPathLike network.now point.now path.now }
    requires best { (k : ℕ) × Unbeaten (Reaches network.now 0 k point.now.from point.now.to point.now.departure) (numbers point.now) }
    ensures is { IfOk result (IsJourney network.now point.now.from point.now.to point.now.departure) }
    ensures alike { IfOk result (λ q. numbers q ≡ numbers point.now) }
    ensures feet { IfOk result (λ q. on_foot network.now q ≡ walked network.now point.now.from path.now point.now.to) }
{
    let patterns = patterns_of(alloc, point.from(), path, point.to())?;
    let answer = ask_any(network, &patterns, point.to(), point.departure());
    for journey in answer.points() {
        if journey.arrival() == point.arrival() && journey.rides() == point.rides() {
            return Ok(journey.copy());
        }
    }
    unreachable!()
}

/// Of the journeys with the numbers of the point that leave no earlier one that walks least, by seconds on foot. The point is the best
/// journey of its rides at its departure, which is at most `LATEST_MOMENT`. It fails only if memory runs out. The scratch serves any
/// further runs.
///
/// If the point walks, the rounds are run once more at its departure. Then a path that walks less is sought backward from its end.
pub fn least_walk(
    alloc: Global,
    network: &Network,
    scratch: &mut Scratch,
    point: &Point,
) -> Result<Point, AllocError>
    requires made { IsMadeFor scratch.old network.now }
    requires from { point.now.from < stops_of network.now }
    requires early { point.now.departure ≤ LATEST_MOMENT }
    requires is { IsJourney network.now point.now.from point.now.to point.now.departure point.now }
    requires best { Unbeaten (Reaches network.now 0 (rides_of scratch.old) point.now.from point.now.to point.now.departure)
        (numbers point.now) }
    ensures same { IsAlike scratch.old scratch.new }
    ensures least { IfOk result (IsLeastLike network.now point.now) }
{
    let bound = walk_of(network, point);
    if bound == 0 || point.rides() == 0 {
        return Ok(point.copy());
    }
    let view = scratch.run(network.timetable(), point.from(), point.departure())?;
    match shorter_path(alloc, network, &view, point, bound)? {
        Some(path) => journey_along(alloc, network, path.as_slice(), point),
        None => Ok(point.copy()),
    }
}
