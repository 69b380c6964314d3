//! Connections between two places.

ghost use Rattle.std.specs.Prelude.{◌<◌, ◌≤◌, IfErr, IfOk};
ghost use Rattle.std.specs.List.{All};
ghost use Rattle.connections.specs.Connections.{IsScanned};
ghost use Rattle.feed_basis.specs.Basis.{IsSound};
ghost use Rattle.rounds.specs.Scratch.{IsMadeFor, rides_of};
ghost use Rattle.timetable.specs.Table.{stops_of};
ghost use Rattle.told_connections.specs.Next.{AreWalked};
ghost use Rattle.told_connections.specs.Windows.{AreTold, IsAnsweredWithin, IsUnansweredWithin};

use crate::choosing::{chosen, enough_for};
use crate::telling::{foot, tell_connections, tell_next};
use crate::times::Times;
use answering::{Asked, between, covered_moment};
use connection_lines::Connections;
use connections::{Connection, Window, scan_first, walk_least};
use direct_connections::Network;
use faults::Fault;
use feed_basis::Basis;
use pattern_query::Refusal;
use questions::Question;
use rounds::Scratch;
use std::alloc::{AllocError, Global};
use std::sync::Arc;
use timetable::{LATEST_MOMENT, Rides};

// The connections, with the journeys that walk least if their rides are wanted.
fn walked(
    alloc: Global,
    network: &Network,
    scratch: &mut Scratch,
    connections: Vec<Connection>,
    legs: bool,
) -> Result<Vec<Connection>, AllocError>
    requires made { IsMadeFor scratch.old network.now }
    requires scanned { All (IsScanned network.now (rides_of scratch.old)) connections.items }
    ensures { IfOk result (λ list. AreWalked network.now legs connections.items list.items) }
{
    if legs {
        walk_least(alloc, network, scratch, &connections)
    } else {
        Ok(connections)
    }
}

// The connections between the stops that depart from the moment to `last`, or the first of them if `next` says how many.
fn found_within(
    alloc: Global,
    basis: &Basis,
    asked: Asked,
    last: u32,
    next: Option<u16>,
    rides: Rides,
    legs: bool,
) -> Result<Connections, AllocError>
    requires sound { IsSound basis.now }
    requires from { asked.from < stops_of basis.now.timetable }
    requires to { asked.to < stops_of basis.now.timetable }
    requires early { last ≤ LATEST_MOMENT }
    ensures { IfOk result (AreTold basis.now rides legs asked.from asked.to asked.depart last next) }
{
    let network = basis.network(alloc)?;
    let lines = Arc::try_clone(network.shared_lines())?;
    let mut scratch = Scratch::over(alloc, network.timetable(), lines, rides)?;
    let window = Window {
        first: asked.depart,
        last,
    };
    let first = scan_first(
        alloc,
        &network,
        &mut scratch,
        asked.from,
        asked.to,
        window,
        enough_for(next),
    )?;
    let told = chosen(first, next);
    let connections = walked(alloc, &network, &mut scratch, told.connections, legs)?;
    Ok(Connections {
        walk: foot(basis.timetable(), asked.from, asked.to),
        list: tell_connections(alloc, basis, legs, &connections)?,
        next: tell_next(basis, told.next, last),
    })
}

/// The connections from stop to stop that depart from the moment to `until`, or the first `next` of them, of at most `rides` rides, by
/// rounds: no tree is asked. With `legs` the rides and walks of each journey are reported.
///
/// The window is searched from its beginning, an hour at a time. Once an hour ends with `ENOUGH` connections, or with `next`, the rest
/// isn't searched, and the answer says from when on.
pub fn scan_within<'a>(
    alloc: Global,
    basis: &Basis,
    question: &Question<'a>,
    times: Times,
    rides: Rides,
    legs: bool,
) -> Result<Connections, Fault<'a>>
    ensures answer { IfOk result (IsAnsweredWithin basis.now rides legs times question.now) }
    ensures refusal { IfErr result (IsUnansweredWithin basis.now times question.now) }
{
    let asked = between(basis, question, times.moment)?;
    let Some(last) = covered_moment(basis, times.until) else {
        return Err(Fault::Question(Refusal::NotCovered));
    };
    let connections = found_within(alloc, basis, asked, last, times.next, rides, legs)?;
    Ok(connections)
}
