//! The answers from a tree and those of the rounds at one moment.

ghost use Rattle.std.specs.Prelude.{◌≡◌, ◌≤◌, ◌<◌, ◌↔◌, IsTrue, IfOk, IfSome, map};
ghost use Rattle.pattern_query.specs.Answer.{numbers};
ghost use Rattle.rounds.specs.Answers.{AreRounds};
ghost use Rattle.rounds.specs.Scratch.{rounds_of};
ghost use Rattle.timetable.specs.Table.{stops_of};
ghost use Rattle.auditing.specs.Audits.{Agrees};
ghost use Rattle.auditing.specs.Comparing.{IsFirstStop, ridden};
ghost use Rattle.auditing.specs.Lacks.{AgreeUnmarked, is_marked};

use direct_connections::Network;
use pattern_query::{Patterns, Point, ask_any};
use rounds::{RoundView, points};
use std::alloc::{AllocError, Global};
use timetable::{LATEST_MOMENT, Numbers, Rides, StopId};

// The numbers of the points of one ride or more.
fn ridden_points(alloc: Global, points: &[Point]) -> Result<Vec<Numbers>, AllocError>
    ensures { IfOk result (λ found. found.items ≡ ridden (map numbers points.now)) }
{
    points
        .iter()
        .map(|point| Numbers {
            arrival: point.arrival(),
            rides: point.rides(),
        })
        .filter(|numbers| numbers.rides > 0)
        .collect(alloc)
}

// Those of one ride or more.
fn ridden_numbers(alloc: Global, front: &[Numbers]) -> Result<Vec<Numbers>, AllocError>
    ensures { IfOk result (λ found. found.items ≡ ridden front.now) }
{
    front
        .iter()
        .copied()
        .filter(|point| point.rides > 0)
        .collect(alloc)
}

// Whether two lists of numbers are equal.
fn are_equal(one: &[Numbers], other: &[Numbers]) -> bool
    ensures { IsTrue result ↔ (one.now ≡ other.now) }
{
    one == other
}

// Whether a stop is marked; one without a mark counts as marked.
fn is_marked(marks: &[bool], stop: usize) -> bool
    ensures { result ≡ is_marked marks.now stop }
{
    marks.get(stop).copied().unwrap_or(true)
}

// Whether the answers to a stop at a moment agree: those from the patterns of a source, and those of the rounds from it.
fn agree(
    alloc: Global,
    network: &Network,
    patterns: &Patterns,
    rides: Rides,
    view: &RoundView<'_>,
    depart: u32,
    to: StopId,
) -> Result<bool, AllocError>
    requires from { patterns.now.source < stops_of network.now }
    requires to { to < stops_of network.now }
    requires early { depart ≤ LATEST_MOMENT }
    requires rounds { AreRounds network.now patterns.now.source depart rides (rounds_of view.now) }
    ensures { IfOk result (λ agree. IsTrue agree ↔ Agrees network.now patterns.now rides depart to) }
{
    let source = patterns.source();
    let asked = ask_any(network, patterns, to, depart);
    let asked = ridden_points(alloc, asked.points())?;
    let found = points(network.timetable(), view, source, to, depart, rides);
    let found = ridden_numbers(alloc, found.as_slice())?;
    Ok(are_equal(asked.as_slice(), found.as_slice()))
}

/// The first stop to which the answers at the moment differ, of those that are marked; to the others they agree. The rounds are those from
/// the patterns' source at that moment. It fails only if memory runs out.
pub(crate) fn first_stop(
    alloc: Global,
    network: &Network,
    patterns: &Patterns,
    rides: Rides,
    view: &RoundView<'_>,
    depart: u32,
    marks: &[bool],
) -> Result<Option<StopId>, AllocError>
    requires from { patterns.now.source < stops_of network.now }
    requires early { depart ≤ LATEST_MOMENT }
    requires rounds { AreRounds network.now patterns.now.source depart rides (rounds_of view.now) }
    ensures first { AgreeUnmarked network.now patterns.now rides marks.now
        → IfOk result (IsFirstStop network.now patterns.now rides depart) }
    ensures within { IfOk result (λ found. IfSome found (λ to. to < stops_of network.now)) }
{
    for number in 0..network.timetable().stops() {
        let stop = StopId::new(number as u32);
        if is_marked(marks, number)
            && !agree(alloc, network, patterns, rides, view, depart, stop)?
        {
            return Ok(Some(stop));
        }
    }
    Ok(None)
}
