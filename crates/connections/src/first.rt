//! The first connections of a window.

ghost use Rattle.std.specs.Prelude.{◌≡◌, ◌<◌, ◌≤◌, IfOk};
ghost use Rattle.std.specs.List.{All};
ghost use Rattle.timetable.specs.Journeys.{Reaches};
ghost use Rattle.timetable.specs.Table.{stops_of};
ghost use Rattle.pattern_query.specs.Answer.{IsJourney};
ghost use Rattle.rounds.specs.Scratch.{IsMadeFor, IsAlike, rides_of};
ghost use Rattle.connections.specs.Connections.{AreFirst, LeavesThen};

use crate::connection::{Connection, Window};
use crate::scanning::scan_connections;
use direct_connections::Network;
use rounds::Scratch;
use std::alloc::{AllocError, Global};
use timetable::{LATEST_MOMENT, StopId};

// How many seconds of a window are searched at once.
const STEP: u32 = 3_600;

/// The connections of a window that depart before a moment.
#[derive(Drop)]
pub struct First {
    /// By departure, then by arrival.
    pub connections: Vec<Connection>,
    /// The moment before which they depart: it is after the window if these are all.
    pub next: u32,
}

/// The part of the window that is searched at once, from `next` on.
pub(crate) fn step_of(window: Window, next: u32) -> Window
    requires { next ≤ window.last }
    ensures first { result.first ≡ next }
    ensures some { next ≤ result.last }
    ensures within { result.last ≤ window.last }
{
    Window {
        first: next,
        last: window.last.min(next.saturating_add(STEP - 1)),
    }
}

/// The first connections of a window, as `scan_connections` has them all. It searches the window by parts of an hour, and stops after the
/// part by which it has `enough`, even if the window goes on. It fails only if memory runs out. The scratch serves any further runs.
pub fn scan_first(
    alloc: Global,
    network: &Network,
    scratch: &mut Scratch,
    from: StopId,
    to: StopId,
    window: Window,
    enough: usize,
) -> Result<First, AllocError>
    requires table { IsMadeFor scratch.old network.now }
    requires from { from < stops_of network.now }
    requires to { to < stops_of network.now }
    requires early { window.last ≤ LATEST_MOMENT }
    ensures same { IsAlike scratch.old scratch.new }
    ensures journeys { IfOk result (λ first. All (λ c. IsJourney network.now from to c.departure c.journey) first.connections.items) }
    ensures departures { IfOk result (λ first. All LeavesThen first.connections.items) }
    ensures right { IfOk result
        (λ first. AreFirst (Reaches network.now 0 (rides_of scratch.old) from to) window enough first.connections.items first.next) }
{
    let mut connections = Vec::new(alloc);
    let mut next = window.first;
    while next <= window.last && connections.len() < enough {
        let step = step_of(window, next);
        let mut more = scan_connections(alloc, network, scratch, from, to, step)?;
        connections.append(&mut more)?;
        next = step.last + 1;
    }
    Ok(First { connections, next })
}
