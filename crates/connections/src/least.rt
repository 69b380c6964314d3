//! Connections whose journeys walk least.

ghost use Rattle.std.specs.Prelude.{IfOk};
ghost use Rattle.std.specs.List.{All, AllZip};
ghost use Rattle.rounds.specs.Scratch.{IsMadeFor, IsAlike, rides_of};
ghost use Rattle.connections.specs.Connections.{IsScanned, WalksLeastFor};

use crate::connection::Connection;
use direct_connections::Network;
use least_walks::least_walk;
use rounds::Scratch;
use std::alloc::{AllocError, Global};

// The connection with the journey that walks least.
fn with_least(
    alloc: Global,
    network: &Network,
    scratch: &mut Scratch,
    connection: &Connection,
) -> Result<Connection, AllocError>
    requires made { IsMadeFor scratch.old network.now }
    requires is { IsScanned network.now (rides_of scratch.old) connection.now }
    ensures same { IsAlike scratch.old scratch.new }
    ensures least { IfOk result (WalksLeastFor network.now connection.now) }
{
    let least = least_walk(alloc, network, scratch, &connection.journey)?;
    Ok(Connection {
        departure: connection.departure,
        journey: least,
    })
}

/// The connections with the same departures and numbers whose journeys walk least, over all journeys between their stops that leave as
/// late. The given ones have at most as many rides as the scratch and depart at `LATEST_MOMENT` or earlier, as `scan_first` finds them.
///
/// For each connection whose journey walks, the rounds are run once at its departure, and a path that walks less is sought backward from
/// its end. It fails only if memory runs out. The scratch serves any further runs, also after an error.
pub fn walk_least(
    alloc: Global,
    network: &Network,
    scratch: &mut Scratch,
    connections: &[Connection],
) -> Result<Vec<Connection>, AllocError>
    requires table { IsMadeFor scratch.old network.now }
    requires scanned { All (IsScanned network.now (rides_of scratch.old)) connections.now }
    ensures same { IsAlike scratch.old scratch.new }
    ensures least { IfOk result (λ list. AllZip (WalksLeastFor network.now) connections.now list.items) }
{
    let mut list = Vec::with_capacity(alloc, connections.len())?;
    for connection in connections {
        list.push(with_least(alloc, network, scratch, connection)?)?;
    }
    Ok(list)
}
