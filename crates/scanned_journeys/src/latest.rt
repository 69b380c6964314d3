//! The last of the journeys with the same numbers.

ghost use Rattle.std.specs.Prelude.{◌≡◌, ℕ, ◌<◌, ◌≤◌, IfOk, IfSome, IfNone};
ghost use Rattle.std.specs.List.{Contains};
ghost use Rattle.pattern_query.specs.Answer.{PointData, numbers, IsJourney};
ghost use Rattle.timetable.specs.Journeys.{Reaches, Unbeaten};
ghost use Rattle.timetable.specs.Table.{IsTable, stops_of};
ghost use Rattle.rounds.specs.Events.{AreEvents};
ghost use Rattle.rounds.specs.Scratch.{IsMadeFor, IsAlike, rides_of};
ghost use Rattle.scanned_journeys.specs.Latest.{IsLastLike};

use crate::scanning::best_at;
use direct_connections::Network;
use pattern_query::Point;
use rounds::Scratch;
use std::alloc::{AllocError, Global};
use timetable::{LATEST_MOMENT, StopId};

// The one of the journeys that has the numbers of another.
fn with_numbers(journeys: &[Point], point: &Point) -> Option<Point>
    ensures found { IfSome result (λ q. Contains journeys.now q × (numbers q ≡ numbers point.now)) }
    ensures none { IfNone result ((q : PointData) → Contains journeys.now q → ¬ (numbers q ≡ numbers point.now)) }
{
    for journey in journeys {
        if journey.arrival() == point.arrival() && journey.rides() == point.rides() {
            return Some(journey.copy());
        }
    }
    None
}

// A journey at an event with the numbers of another, if they are among the best there.
fn like_at(
    alloc: Global,
    network: &Network,
    scratch: &mut Scratch,
    from: StopId,
    to: StopId,
    event: u32,
    point: &Point,
) -> Result<Option<Point>, AllocError>
    requires made { IsMadeFor scratch.old network.now }
    requires from { from < stops_of network.now }
    requires to { to < stops_of network.now }
    requires early { event ≤ LATEST_MOMENT }
    ensures same { IsAlike scratch.old scratch.new }
    ensures found { IfOk result (λ like. IfSome like (λ q. IsJourney network.now from to event q × (numbers q ≡ numbers point.now))) }
    ensures none { IfOk result (λ like. IfNone like
        (¬ Unbeaten (Reaches network.now 0 (rides_of scratch.old) from to event) (numbers point.now))) }
{
    let answer = best_at(alloc, network, scratch, from, to, event)?;
    Ok(with_numbers(answer.points(), point))
}

/// Of the journeys with the numbers of the point one that leaves last, if they are among the best at some moment at which the point is a
/// journey. The events are those of the stop to leave from. It runs the rounds at the first of them after each departure that it finds.
/// It fails only if memory runs out. The scratch serves any further runs.
pub(crate) fn latest_like(
    alloc: Global,
    network: &Network,
    scratch: &mut Scratch,
    events: &[u32],
    from: StopId,
    to: StopId,
    point: &Point,
) -> Result<Point, AllocError>
    requires made { IsMadeFor scratch.old network.now }
    requires from { from < stops_of network.now }
    requires to { to < stops_of network.now }
    requires valid { IsTable network.now }
    requires events { AreEvents network.now from events.now }
    ensures same { IsAlike scratch.old scratch.new }
    ensures last { IfOk result (λ last. (d : ℕ) → IsJourney network.now from to d point.now
        → Unbeaten (Reaches network.now 0 (rides_of scratch.old) from to d) (numbers point.now)
        → IsLastLike network.now (rides_of scratch.old) from to d point.now last) }
{
    let mut last = point.copy();
    if point.rides() == 0 {
        return Ok(last);
    }
    for event in events {
        if *event <= last.departure() {
            continue;
        }
        let Some(later) = like_at(alloc, network, scratch, from, to, *event, &last)? else {
            return Ok(last);
        };
        last = later;
    }
    Ok(last)
}
