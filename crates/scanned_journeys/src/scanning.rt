//! The best journeys from a stop to a stop, by the rounds.

ghost use Rattle.std.specs.Prelude.{◌≤◌, ◌<◌, IfOk, map};
ghost use Rattle.std.specs.List.{All};
ghost use Rattle.pattern_query.specs.Answer.{numbers, IsJourney};
ghost use Rattle.pattern_query.specs.Leaving.{IsLatest, LeavesLast};
ghost use Rattle.timetable.specs.Front.{AreFront};
ghost use Rattle.timetable.specs.Journeys.{Reaches};
ghost use Rattle.timetable.specs.Table.{stops_of};
ghost use Rattle.rounds.specs.Answers.{AreRounds};
ghost use Rattle.rounds.specs.Scratch.{IsAlike, IsMadeFor, rides_of, rounds_of};

use crate::latest::latest_like;
use crate::patterns::patterns_to;
use direct_connections::Network;
use least_walks::least_walk;
use pattern_query::{Answer, ask};
use rounds::{RoundView, Scratch};
use std::alloc::{AllocError, Global};
use std::sync::Arc;
use timetable::{LATEST_MOMENT, Rides, StopId};

/// The best journeys from a stop to a stop at a moment of at most `LATEST_MOMENT`, as `scan_journeys` has them. They come from rounds of at
/// most `rides` rides that were run from the stop at the moment. It fails only if memory runs out.
pub fn journeys_of(
    alloc: Global,
    network: &Network,
    view: &RoundView<'_>,
    from: StopId,
    to: StopId,
    depart: u32,
    rides: Rides,
) -> Result<Answer, AllocError>
    requires to { to < stops_of network.now }
    requires early { depart ≤ LATEST_MOMENT }
    requires rounds { AreRounds network.now from depart rides (rounds_of view.now) }
    ensures journeys { IfOk result (λ answer. All (IsJourney network.now from to depart) answer) }
    ensures best { IfOk result (λ answer. AreFront network.now rides from to depart (map numbers answer)) }
{
    let patterns = patterns_to(alloc, view, from, to, rides)?;
    Ok(ask(network, &patterns, to, depart))
}

/// The best journeys from a stop to a stop at a moment, as `journeys_of` has them, by rounds of the scratch.
pub(crate) fn best_at(
    alloc: Global,
    network: &Network,
    scratch: &mut Scratch,
    from: StopId,
    to: StopId,
    depart: u32,
) -> Result<Answer, AllocError>
    requires made { IsMadeFor scratch.old network.now }
    requires from { from < stops_of network.now }
    requires to { to < stops_of network.now }
    requires early { depart ≤ LATEST_MOMENT }
    ensures same { IsAlike scratch.old scratch.new }
    ensures journeys { IfOk result (λ answer. All (IsJourney network.now from to depart) answer) }
    ensures best { IfOk result (λ answer. AreFront network.now (rides_of scratch.old) from to depart (map numbers answer)) }
{
    let rides = scratch.rides();
    let view = scratch.run(network.timetable(), from, depart)?;
    journeys_of(alloc, network, &view, from, to, depart, rides)
}

// The best journeys as `scan_journeys` has them, by a scratch of as many rides.
fn last_journeys(
    alloc: Global,
    network: &Network,
    scratch: &mut Scratch,
    from: StopId,
    to: StopId,
    depart: u32,
) -> Result<Answer, AllocError>
    requires made { IsMadeFor scratch.old network.now }
    requires from { from < stops_of network.now }
    requires to { to < stops_of network.now }
    requires early { depart ≤ LATEST_MOMENT }
    ensures journeys { IfOk result (λ answer. All (IsJourney network.now from to depart) answer) }
    ensures best { IfOk result (λ answer. AreFront network.now (rides_of scratch.old) from to depart (map numbers answer)) }
    ensures latest { IfOk result (λ answer. All (IsLatest (Reaches network.now 0 (rides_of scratch.old) from to)) answer) }
    ensures last { IfOk result (λ answer. All (LeavesLast network.now (IsJourney network.now from to depart)) answer) }
{
    let mut answer = best_at(alloc, network, scratch, from, to, depart)?;
    let events = scratch.departures(alloc, network.timetable(), from)?;
    for index in 0..answer.points().len() {
        let point = &answer.points()[index];
        let last = latest_like(alloc, network, scratch, &events, from, to, point)?;
        let least = least_walk(alloc, network, scratch, &last)?;
        answer.put(index, least);
    }
    Ok(answer)
}

/// The best journeys from a stop to a stop at a moment of at most `LATEST_MOMENT`, by rising rides: one for each of the best
/// numbers over all journeys of at most `rides` rides, the way on foot among them, with its rides. No journey with the same numbers leaves
/// later, and none that leaves as late walks less.
///
/// The rounds find the numbers (RAPTOR), and the pattern of a journey that has them. Along each such pattern the earliest rides are
/// taken (Transfer Patterns). For each journey with a ride it runs the rounds once more at the first event after its departure, and again
/// if one can leave then. If the one that leaves last walks, one that walks less is sought. All runs are of one scratch. It fails only if
/// memory runs out.
pub fn scan_journeys(
    alloc: Global,
    network: &Network,
    from: StopId,
    to: StopId,
    depart: u32,
    rides: Rides,
) -> Result<Answer, AllocError>
    requires from { from < stops_of network.now }
    requires to { to < stops_of network.now }
    requires early { depart ≤ LATEST_MOMENT }
    ensures journeys { IfOk result (λ answer. All (IsJourney network.now from to depart) answer) }
    ensures best { IfOk result (λ answer. AreFront network.now rides from to depart (map numbers answer)) }
    ensures latest { IfOk result (λ answer. All (IsLatest (Reaches network.now 0 rides from to)) answer) }
    ensures last { IfOk result (λ answer. All (LeavesLast network.now (IsJourney network.now from to depart)) answer) }
{
    let lines = Arc::try_clone(network.shared_lines())?;
    let mut scratch = Scratch::over(alloc, network.timetable(), lines, rides)?;
    last_journeys(alloc, network, &mut scratch, from, to, depart)
}
