//! Connections as they are reported.

ghost use Rattle.std.specs.Prelude.{◌≡◌, ◌≤◌, IfOk};
ghost use Rattle.std.specs.List.{All, AllZip};
ghost use Rattle.timetable.specs.Journeys.{foot};
ghost use Rattle.told_connections.specs.Windows.{TellsConnection, TellsNext};
ghost use Rattle.feed_basis.specs.Points.{IsKnownJourney};

use answer_lines::DayTime;
use connection_lines::Connection;
use feed_basis::{Basis, tell};
use std::alloc::{AllocError, Global};
use timetable::{LATEST_MOMENT, StopId, Timetable};

// A connection as it is reported, with its rides and walks if they are wanted.
fn tell_connection(
    alloc: Global,
    basis: &Basis,
    wanted: bool,
    connection: &connections::Connection,
) -> Result<Connection, AllocError>
    requires early { connection.now.departure ≤ LATEST_MOMENT }
    requires known { IsKnownJourney basis.now connection.now.departure connection.now.journey }
    ensures { IfOk result (TellsConnection basis.now wanted connection.now) }
{
    let departure = connection.departure;
    Ok(Connection {
        departs: basis.day_time(departure),
        journey: tell(alloc, basis, departure, wanted, &connection.journey)?,
    })
}

/// Connections as they are reported, with their rides and walks if they are wanted. It fails only if memory runs out.
pub(crate) fn tell_connections(
    alloc: Global,
    basis: &Basis,
    wanted: bool,
    connections: &[connections::Connection],
) -> Result<Vec<Connection>, AllocError>
    requires early { All (λ c. c.departure ≤ LATEST_MOMENT) connections.now }
    requires known { All (λ c. IsKnownJourney basis.now c.departure c.journey) connections.now }
    ensures { IfOk result (λ list. AllZip (TellsConnection basis.now wanted) connections.now list.items) }
{
    let mut list = Vec::with_capacity(alloc, connections.len())?;
    for connection in connections {
        list.push(tell_connection(alloc, basis, wanted, connection)?)?;
    }
    Ok(list)
}

/// The moment `next` as it is reported, if it lies within the window.
pub(crate) fn tell_next(basis: &Basis, next: u32, last: u32) -> Option<DayTime>
    ensures { TellsNext basis.now.cover next last result }
{
    if next <= last {
        Some(basis.day_time(next))
    } else {
        None
    }
}

/// The seconds on foot from a stop to a stop, if one may walk.
pub(crate) fn foot(table: &Timetable, from: StopId, to: StopId) -> Option<u32>
    ensures { result ≡ foot table.now from to }
{
    if from == to {
        Some(0)
    } else {
        table.walk(from, to)
    }
}
