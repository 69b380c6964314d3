//! Connections between two places, from trees.

ghost use Rattle.std.specs.Prelude.{◌≡◌, List, Some, IfErr, IfOk, ℕ};
ghost use Rattle.std.specs.Option.{option_map};
ghost use Rattle.feed_ids.specs.Names.{stops_in};
ghost use Rattle.told_connections.specs.Windows.{IsAskedWithin, IsUnaskedWithin};

use crate::choosing::{chosen, enough_for};
use crate::telling::{tell_connections, tell_next};
use crate::times::Times;
use crate::walks::least_walk;
use answering::{covered_moment, journeys};
use connection_lines::Connections;
use connections::{Window, ask_first};
use direct_connections::Network;
use faults::Fault;
use feed_basis::Basis;
use feed_ids::Place;
use pattern_query::{Refusal, Trees, place_named, stops_of};
use questions::Question;
use std::alloc::Global;
use timetable::StopId;

/// The stops of a place, none if there is no place.
pub fn stops_of_any<'a>(place: &'a Option<Place<'a>>) -> &'a [StopId]
    ensures { (stops : List ℕ) → option_map stops_in place.now ≡ Some stops → result.now ≡ stops }
{
    match place {
        Some(place) => stops_of(place),
        None => &[],
    }
}

/// The connections between the question's places, each a stop or a station, that depart from the moment to `until`, or the first `next` of
/// them. They are from the trees of the first place's stops. With `legs` the rides and walks of each journey are reported. If the trees are
/// complete, these are the connections of all journeys. The network is that of the basis's timetable.
///
/// The window is searched as `scan_within` does.
pub fn ask_within<'a, T: Trees>(
    alloc: Global,
    basis: &'a Basis,
    network: &Network,
    trees: &T,
    question: &Question<'a>,
    times: Times,
    legs: bool,
) -> Result<Connections, Fault<'a>>
    requires network { network.now ≡ basis.now.timetable }
    ensures answer { IfOk result (IsAskedWithin basis.now (T.held trees.now) legs times question.now) }
    ensures refusal { IfErr result (IsUnaskedWithin basis.now (T.held trees.now) times question.now) }
{
    let (_, first) = journeys(basis, network, trees, question, times.moment)?;
    let Some(last) = covered_moment(basis, times.until) else {
        return Err(Fault::Question(Refusal::NotCovered));
    };
    let start = place_named(basis.names(), question.from);
    let end = place_named(basis.names(), question.to);
    let froms = stops_of_any(&start);
    let tos = stops_of_any(&end);
    let window = Window { first, last };
    let enough = enough_for(times.next);
    let found = ask_first(alloc, network, trees, froms, tos, window, enough)?;
    let told = chosen(found, times.next);
    Ok(Connections {
        walk: least_walk(basis.timetable(), froms, tos),
        list: tell_connections(alloc, basis, legs, &told.connections)?,
        next: tell_next(basis, told.next, last),
    })
}
