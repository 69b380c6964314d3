//! The first connections of a window between places.

ghost use Rattle.std.specs.Prelude.{ℕ, ◌<◌, ◌≤◌, IfOk};
ghost use Rattle.std.specs.List.{All};
ghost use Rattle.timetable.specs.Table.{stops_of};
ghost use Rattle.pattern_query.specs.Questions.{AreComplete, AskedReaches, IsAskedPoint, IsStored, ReachesBetween};
ghost use Rattle.connections.specs.Connections.{AreFirst, LeavesThen, WalksLeast};

use crate::asking::ask_connections;
use crate::connection::Window;
use crate::first::{First, step_of};
use direct_connections::Network;
use pattern_query::Trees;
use std::alloc::{AllocError, Global};
use timetable::{LATEST_MOMENT, StopId};

/// The first connections of a window from some stops to others, as `ask_connections` has them all. It asks by parts of an hour, and stops
/// as `scan_first` does. It fails only if memory runs out.
pub fn ask_first<T: Trees>(
    alloc: Global,
    network: &Network,
    trees: &T,
    froms: &[StopId],
    tos: &[StopId],
    window: Window,
    enough: usize,
) -> Result<First, AllocError>
    requires known { All (λ s. s < stops_of network.now) froms.now }
    requires stored { All (IsStored (T.held trees.now)) froms.now }
    requires early { window.last ≤ LATEST_MOMENT }
    ensures points { IfOk result (λ first.
        All (λ c. IsAskedPoint network.now (T.held trees.now) froms.now tos.now c.departure c.journey) first.connections.items) }
    ensures departures { IfOk result (λ first. All LeavesThen first.connections.items) }
    ensures last { IfOk result (λ first. All (WalksLeast network.now (T.held trees.now) froms.now tos.now) first.connections.items) }
    ensures best { IfOk result (λ first.
        AreFirst (AskedReaches network.now (T.held trees.now) froms.now tos.now) window enough first.connections.items first.next) }
    ensures exact { IfOk result (λ first. (k : ℕ) → AreComplete network.now (T.held trees.now) k froms.now
        → AreFirst (ReachesBetween network.now k froms.now tos.now) window enough first.connections.items first.next) }
{
    let mut connections = Vec::new(alloc);
    let mut next = window.first;
    while next <= window.last && connections.len() < enough {
        let step = step_of(window, next);
        let mut more = ask_connections(alloc, network, trees, froms, tos, step)?;
        connections.append(&mut more)?;
        next = step.last + 1;
    }
    Ok(First { connections, next })
}
