//! The connections of a window between places, by the patterns of trees.

ghost use Rattle.std.specs.Prelude.{Option, ◌≡◌, ℕ, ◌+◌, ◌<◌, ◌≤◌, ◌↔◌, IfOk, IsTrue, OnOk, map};
ghost use Rattle.std.specs.List.{All};
ghost use Rattle.timetable.specs.Front.{AreBest};
ghost use Rattle.timetable.specs.Table.{stops_of};
ghost use Rattle.pattern_query.specs.Answer.{numbers};
ghost use Rattle.pattern_query.specs.Gathered.{AddsAsked, IsTo};
ghost use Rattle.pattern_query.specs.Questions.{AreComplete, AskedReaches, IsAskedPoint, IsStored, ReachesBetween};
ghost use Rattle.pattern_query.specs.Leaving.{LeavesLast};
ghost use Rattle.connections.specs.Connections.{AreConnections, LeavesThen, WalksLeast};
ghost use Rattle.connections.specs.Found.{AddsSome, AreAfter, AreFound, AreMoments, IsEventOf, IsNoWorse, IsScope, IsThere, IsLastBefore};
ghost use Rattle.connections.specs.Found.{LiesAt, Scope, between, points_in};

use crate::connection::{Connection, Window};
use crate::moments::{count_before, count_up_to};
use direct_connections::Network;
use pattern_query::{Answer, BestSoFar, Patterns, Point, Trees, leave_last};
use rounds::departures;
use std::alloc::{AllocError, Global};
use timetable::{LATEST_MOMENT, StopId};

// Whether a point has a ride, no more rides than the journey, and arrives by then.
fn is_no_worse(point: &Point, journey: &Point) -> bool
    ensures { IsTrue result ↔ IsNoWorse point.now journey.now }
{
    point.rides() > 0 && point.rides() <= journey.rides() && point.arrival() <= journey.arrival()
}

// Whether one of the points is such a one.
fn is_there(next: &[Point], journey: &Point) -> bool
    ensures { IsTrue result ↔ IsThere next.now journey.now }
{
    for point in next {
        if is_no_worse(point, journey) {
            return true;
        }
    }
    false
}

// Adds those of the journeys of an event with a ride for which one can't leave at the next event.
fn add_last(
    points: &[Point],
    next: &[Point],
    event: u32,
    found: &mut Vec<Connection>,
) -> Result<(), AllocError>
    ensures { OnOk result (AddsSome (IsLastBefore next.now) event points.now found.old.items found.new.items) }
{
    for journey in points {
        if journey.rides() > 0 && !is_there(next, journey) {
            found.push(Connection {
                departure: event,
                journey: journey.copy(),
            })?;
        }
    }
    Ok(())
}

// The points of an answer, if there is one.
fn points_of(answer: &Option<Answer>) -> &[Point]
    ensures { result.now ≡ points_in answer.now }
{
    match answer {
        Some(answer) => answer.points(),
        None => &[],
    }
}

// Puts in the journeys of the patterns to each of the stops.
fn search_to(
    network: &Network,
    patterns: &Patterns,
    tos: &[StopId],
    depart: u32,
    best: &mut BestSoFar,
)
    requires early { depart ≤ LATEST_MOMENT }
    ensures { AddsAsked network.now (IsTo patterns.now tos.now) depart best.old best.new }
{
    for to in tos {
        best.search(network, patterns, *to, depart);
    }
}

// The best journeys from the trees of stops to others at a moment.
fn ask_at<T: Trees>(
    network: &Network,
    trees: &T,
    froms: &[StopId],
    tos: &[StopId],
    depart: u32,
) -> Answer
    requires early { depart ≤ LATEST_MOMENT }
    requires stored { All (IsStored (T.held trees.now)) froms.now }
    ensures points { All (IsAskedPoint network.now (T.held trees.now) froms.now tos.now depart) result }
    ensures best { (scope : Option ℕ) → IsScope network.now (T.held trees.now) froms.now scope
        → AreBest (Scope network.now (T.held trees.now) froms.now tos.now scope depart) (map numbers result) }
    ensures last { All (LeavesLast network.now (IsAskedPoint network.now (T.held trees.now) froms.now tos.now depart)) result }
{
    let mut best = BestSoFar::new();
    for source in froms {
        if let Some(patterns) = trees.patterns(*source) {
            search_to(network, patterns, tos, depart, &mut best);
        }
    }
    leave_last(network, trees, froms, tos, depart, &mut best);
    best.answer()
}

// The events of all these stops, strictly rising.
fn departures_of(alloc: Global, network: &Network, stops: &[StopId]) -> Result<Vec<u32>, AllocError>
    requires { All (λ s. s < stops_of network.now) stops.now }
    ensures moments { IfOk result (λ moments. AreMoments (IsEventOf network.now stops.now) moments.items) }
    ensures early { IfOk result (λ moments. All (λ e. e ≤ LATEST_MOMENT) moments.items) }
{
    let table = network.timetable();
    let mut moments = Vec::new(alloc);
    for stop in stops {
        let mut more = departures(alloc, table, network.lines(), *stop)?;
        moments.append(&mut more)?;
    }
    moments.sort_unstable();
    moments.dedup();
    Ok(moments)
}

// The answer at the first event after the window, if there is one.
fn answer_after<T: Trees>(
    network: &Network,
    trees: &T,
    froms: &[StopId],
    tos: &[StopId],
    events: &[u32],
    end: usize,
) -> Option<Answer>
    requires events { AreMoments (IsEventOf network.now froms.now) events.now }
    requires early { All (λ e. e ≤ LATEST_MOMENT) events.now }
    requires stored { All (IsStored (T.held trees.now)) froms.now }
    ensures { (scope : Option ℕ) (e : ℕ) → IsScope network.now (T.held trees.now) froms.now scope → LiesAt events.now end (e + 1)
        → AreAfter (Scope network.now (T.held trees.now) froms.now tos.now scope) e (points_in result) }
{
    if end < events.len() {
        Some(ask_at(network, trees, froms, tos, events[end]))
    } else {
        None
    }
}

// Adds the connections that leave at an event, if `next` has those of the next later one, and gives the answer at the event.
fn add_answer<T: Trees>(
    network: &Network,
    trees: &T,
    froms: &[StopId],
    tos: &[StopId],
    event: u32,
    next: &Option<Answer>,
    found: &mut Vec<Connection>,
) -> Result<Answer, AllocError>
    requires early { event ≤ LATEST_MOMENT }
    requires stored { All (IsStored (T.held trees.now)) froms.now }
    requires after { (scope : Option ℕ) → IsScope network.now (T.held trees.now) froms.now scope
        → AreAfter (Scope network.now (T.held trees.now) froms.now tos.now scope) event (points_in next.now) }
    ensures best { IfOk result (λ answer. (scope : Option ℕ) → IsScope network.now (T.held trees.now) froms.now scope
        → AreBest (Scope network.now (T.held trees.now) froms.now tos.now scope event) (map numbers answer)) }
    ensures points { OnOk result (
        All (λ c. IsAskedPoint network.now (T.held trees.now) froms.now tos.now c.departure c.journey) found.old.items
        → All (λ c. IsAskedPoint network.now (T.held trees.now) froms.now tos.now c.departure c.journey) found.new.items) }
    ensures last { OnOk result (All (WalksLeast network.now (T.held trees.now) froms.now tos.now) found.old.items
        → All (WalksLeast network.now (T.held trees.now) froms.now tos.now) found.new.items) }
    ensures found { OnOk result ((scope : Option ℕ) (last : ℕ) → IsScope network.now (T.held trees.now) froms.now scope → event ≤ last
        → AreFound (Scope network.now (T.held trees.now) froms.now tos.now scope) (between (event + 1) last) found.old.items
        → AreFound (Scope network.now (T.held trees.now) froms.now tos.now scope) (between event last) found.new.items) }
{
    let answer = ask_at(network, trees, froms, tos, event);
    add_last(answer.points(), points_of(next), event, found)?;
    Ok(answer)
}

/// The connections from some stops to others that depart within a window, along the patterns of the first stops' trees: by departure, then
/// by arrival, one for each of their numbers, with its rides. If the trees are complete, they are those of the timetable. A departure after
/// the window counts as it does for `scan_connections`. Of the journeys of the trees with the same numbers and departure each walks least.
///
/// It asks once at each of the first stops' events within the window, and at the one after it. It fails only if memory runs out.
pub fn ask_connections<T: Trees>(
    alloc: Global,
    network: &Network,
    trees: &T,
    froms: &[StopId],
    tos: &[StopId],
    window: Window,
) -> Result<Vec<Connection>, AllocError>
    requires known { All (λ s. s < stops_of network.now) froms.now }
    requires stored { All (IsStored (T.held trees.now)) froms.now }
    ensures points { IfOk result
        (λ list. All (λ c. IsAskedPoint network.now (T.held trees.now) froms.now tos.now c.departure c.journey) list.items) }
    ensures best { IfOk result (λ list. AreConnections (AskedReaches network.now (T.held trees.now) froms.now tos.now) window list.items) }
    ensures departures { IfOk result (λ list. All LeavesThen list.items) }
    ensures last { IfOk result (λ list. All (WalksLeast network.now (T.held trees.now) froms.now tos.now) list.items) }
    ensures exact { IfOk result (λ list. (k : ℕ) → AreComplete network.now (T.held trees.now) k froms.now
        → AreConnections (ReachesBetween network.now k froms.now tos.now) window list.items) }
{
    let events = departures_of(alloc, network, froms)?;
    let end = count_up_to(&events, window.last);
    let first = count_before(&events, window.first);
    let mut next = answer_after(network, trees, froms, tos, &events, end);
    let mut found = Vec::new(alloc);
    for index in (first..end).rev() {
        let event = events[index];
        next = Some(add_answer(network, trees, froms, tos, event, &next, &mut found)?);
    }
    found.reverse();
    Ok(found)
}
