//! The connections of a window, by the rounds at each of its events.

ghost use Rattle.std.specs.Prelude.{◌≡◌, ℕ, ◌+◌, ◌<◌, ◌≤◌, ◌↔◌, IfOk, IsTrue, OnOk, length};
ghost use Rattle.std.specs.List.{All};
ghost use Rattle.timetable.specs.Journeys.{Reaches};
ghost use Rattle.pattern_query.specs.Answer.{IsJourney};
ghost use Rattle.timetable.specs.Table.{stops_of};
ghost use Rattle.rounds.specs.Events.{IsEvent, AreEvents};
ghost use Rattle.rounds.specs.Scratch.{IsMadeFor, IsAlike, MayGoOn, GoesOn, rides_of, rounds_of, before_of, source_of, kept_of};
ghost use Rattle.connections.specs.Connections.{AreConnections, LeavesThen};
ghost use Rattle.connections.specs.Found.{AddsSome, AreFound, AreLeastAt, IsBy, IsLowered, IsLoweredWithin, LiesAt, between};

use crate::connection::{Connection, Window};
use crate::moments::{count_before, count_up_to};
use direct_connections::Network;
use pattern_query::Point;
use rounds::{RoundView, Scratch};
use scanned_journeys::journeys_of;
use std::alloc::{AllocError, Global};
use timetable::{Rides, StopId};

// Adds those of the journeys of an event that have a ride and an arrival that no later event has.
fn add_lowered(
    points: &[Point],
    view: &RoundView<'_>,
    to: StopId,
    event: u32,
    found: &mut Vec<Connection>,
) -> Result<(), AllocError>
    requires { All (λ p. p.rides ≤ length (rounds_of view.now)) points.now }
    ensures { OnOk result
        (AddsSome (IsLowered (rounds_of view.now) (before_of view.now) to) event points.now found.old.items found.new.items) }
{
    for journey in points {
        if journey.rides() > 0 && view.changed(journey.rides(), to) {
            found.push(Connection {
                departure: event,
                journey: journey.copy(),
            })?;
        }
    }
    Ok(())
}

// Whether with some number of rides one is at the stop sooner than in the run before.
fn is_lowered(view: &RoundView<'_>, to: StopId, rides: Rides) -> bool
    requires { length (rounds_of view.now) ≡ rides }
    ensures { IsTrue result ↔ IsLoweredWithin (rounds_of view.now) (before_of view.now) to rides }
{
    for fewer in 0..rides.number() {
        if view.changed(fewer + 1, to) {
            return true;
        }
    }
    false
}

// Adds the connections that leave at an event, if the scratch has the rounds of the next later one.
fn add_event(
    alloc: Global,
    network: &Network,
    scratch: &mut Scratch,
    from: StopId,
    to: StopId,
    event: u32,
    found: &mut Vec<Connection>,
) -> Result<(), AllocError>
    requires table { IsMadeFor scratch.old network.now }
    requires source { source_of scratch.old ≡ from }
    requires from { from < stops_of network.now }
    requires to { to < stops_of network.now }
    requires event { IsEvent network.now from event }
    requires kept { MayGoOn network.now event scratch.old }
    requires later { AreLeastAt network.now (rides_of scratch.old) from (event + 1) (kept_of scratch.old) }
    ensures on { GoesOn network.now event scratch.old scratch.new }
    ensures journeys { OnOk result (All (λ c. IsJourney network.now from to c.departure c.journey) found.old.items
        → All (λ c. IsJourney network.now from to c.departure c.journey) found.new.items) }
    ensures found { OnOk result ((last : ℕ) → event ≤ last
        → AreFound (Reaches network.now 0 (rides_of scratch.old) from to) (between (event + 1) last) found.old.items
        → AreFound (Reaches network.now 0 (rides_of scratch.old) from to) (between event last) found.new.items) }
{
    let rides = scratch.rides();
    let view = scratch.run_kept(network.timetable(), event)?;
    if !is_lowered(&view, to, rides) {
        return Ok(());
    }
    let answer = journeys_of(alloc, network, &view, from, to, event, rides)?;
    add_lowered(answer.points(), &view, to, event, found)
}

// Begins runs from a stop by one at the first of its events that is after the window, if there is one.
fn begin(
    network: &Network,
    scratch: &mut Scratch,
    from: StopId,
    events: &[u32],
    end: usize,
) -> Result<(), AllocError>
    requires table { IsMadeFor scratch.old network.now }
    requires from { from < stops_of network.now }
    requires events { AreEvents network.now from events.now }
    requires end { end ≤ length events.now }
    ensures same { IsAlike scratch.old scratch.new }
    ensures source { OnOk result (source_of scratch.new ≡ from) }
    ensures kept { OnOk result ((d : ℕ) → IsBy events.now end d → MayGoOn network.now d scratch.new) }
    ensures later { OnOk result ((d : ℕ) → LiesAt events.now end d
        → AreLeastAt network.now (rides_of scratch.old) from d (kept_of scratch.new)) }
{
    scratch.restart(from);
    if end < events.len() {
        scratch.run_kept(network.timetable(), events[end])?;
    }
    Ok(())
}

/// The connections from a stop to a stop that depart within a window, of at most as many rides as the scratch has: by departure, then by
/// arrival. There is one for each of their numbers, with its rides. Departures after the window count in one way: if one can leave later
/// and be there as early with no more rides, that is no connection of the window.
///
/// It runs the rounds at each of the stop's events within the window, and at the one after it (RAPTOR's range query). It fails only if
/// memory runs out. The scratch serves any further runs, also after an error.
pub fn scan_connections(
    alloc: Global,
    network: &Network,
    scratch: &mut Scratch,
    from: StopId,
    to: StopId,
    window: Window,
) -> Result<Vec<Connection>, AllocError>
    requires table { IsMadeFor scratch.old network.now }
    requires from { from < stops_of network.now }
    requires to { to < stops_of network.now }
    ensures same { IsAlike scratch.old scratch.new }
    ensures journeys { IfOk result (λ list. All (λ c. IsJourney network.now from to c.departure c.journey) list.items) }
    ensures departures { IfOk result (λ list. All LeavesThen list.items) }
    ensures right { IfOk result (λ list. AreConnections (Reaches network.now 0 (rides_of scratch.old) from to) window list.items) }
{
    let events = scratch.departures(alloc, network.timetable(), from)?;
    let end = count_up_to(&events, window.last);
    let first = count_before(&events, window.first);
    begin(network, scratch, from, &events, end)?;
    let mut found = Vec::new(alloc);
    for index in (first..end).rev() {
        add_event(alloc, network, scratch, from, to, events[index], &mut found)?;
    }
    found.reverse();
    Ok(found)
}
