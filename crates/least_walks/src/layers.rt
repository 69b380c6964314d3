//! The ways on from all stops, by the rides that are left.

ghost use Rattle.std.specs.Prelude.{◌≡◌, ℕ, ◌+◌, ◌<◌, ◌≤◌, [], true, length, IfOk, MatchOption};
ghost use Rattle.std.specs.List.{All};
ghost use Rattle.timetable.specs.Table.{stops_of};
ghost use Rattle.rounds.specs.Answers.{AreRounds};
ghost use Rattle.rounds.specs.Mark.{arrival_in};
ghost use Rattle.rounds.specs.Scratch.{rounds_of};
ghost use Rattle.least_walks.specs.Ways.{Gathers, HopsAmong, Anywhere, ways_at};
ghost use Rattle.least_walks.specs.Layers.{AreWays};

use crate::boarding::boards_of;
use crate::walking::{hops_from, last_walk};
use crate::ways::Ways;
use direct_connections::Network;
use rounds::RoundView;
use std::alloc::{AllocError, Global};
use timetable::StopId;

/// The ways on from each stop without a ride, to be at a stop by then. It fails only if memory runs out.
pub(crate) fn last_walks(
    alloc: Global,
    network: &Network,
    to: StopId,
    by: u32,
    bound: u32,
) -> Result<Vec<Ways>, AllocError>
    ensures { IfOk result (λ rows. (s d i : ℕ) → AreWays network.now s d to by bound i 0 rows.items) }
{
    let stops = network.timetable().stops();
    let mut rows = Vec::with_capacity(alloc, stops)?;
    for number in 0..stops {
        let stop = StopId::new(number as u32);
        rows.push(last_walk(alloc, network, stop, to, by, bound)?)?;
    }
    Ok(rows)
}

// The ways on from a stop after `rides` rides. If one can't be there after these, there is none.
fn hops_at(
    alloc: Global,
    network: &Network,
    view: &RoundView<'_>,
    rides: u8,
    stop: StopId,
    boards: &[Ways],
    bound: u32,
) -> Result<Ways, AllocError>
    requires rides { rides ≤ length (rounds_of view.now) }
    requires stop { stop < stops_of network.now }
    ensures { IfOk result (λ ways. MatchOption (arrival_in (rounds_of view.now) rides stop) (ways ≡ [])
        (λ since. Gathers (HopsAmong network.now true stop Anywhere boards.now) since bound [] ways)) }
{
    match view.arrival(rides, stop) {
        Some(since) => hops_from(alloc, network, true, stop, boards, since, bound),
        None => Ok(Ways::new(alloc)),
    }
}

/// The ways on from each stop with one ride more, if one is there after `rides` rides. The rounds say when one can be there at the
/// earliest. It fails only if memory runs out.
pub(crate) fn one_ride_more(
    alloc: Global,
    network: &Network,
    view: &RoundView<'_>,
    rides: u8,
    alights: &[Ways],
    bound: u32,
) -> Result<Vec<Ways>, AllocError>
    requires some { 1 ≤ rides }
    requires rides { rides ≤ length (rounds_of view.now) }
    requires short { (p : ℕ) → All (λ w. length w.path < 8) (ways_at alights.now p) }
    ensures { IfOk result (λ rows. (s d t by n : ℕ) → AreRounds network.now s d (length (rounds_of view.now)) (rounds_of view.now)
        → AreWays network.now s d t by bound (rides + 1) n alights.now → AreWays network.now s d t by bound rides (n + 1) rows.items) }
{
    let boards = boards_of(alloc, network, alights, bound)?;
    let stops = network.timetable().stops();
    let mut rows = Vec::with_capacity(alloc, stops)?;
    for number in 0..stops {
        let stop = StopId::new(number as u32);
        rows.push(hops_at(alloc, network, view, rides, stop, &boards, bound)?)?;
    }
    Ok(rows)
}
