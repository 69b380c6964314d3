//! The stops that one reaches, as they are reported.

ghost use Rattle.std.specs.Prelude.{◌≡◌, ◌<◌, ◌≤◌, IfErr, IfOk};
ghost use Rattle.std.specs.List.{All, AllZip};
ghost use Rattle.timetable.specs.Table.{stops_of};
ghost use Rattle.feed_basis.specs.Basis.{IsSound};
ghost use Rattle.told_reach.specs.Reaches.{IsReach, IsUnreached, ReportsReach, TellsStop, last_of};

use answer_lines::{Reach, ReachedStop, Report};
use answering::covered_moment;
use faults::Fault;
use feed_basis::Basis;
use pattern_query::Refusal;
use reaching::{Reached, reach};
use std::alloc::{AllocError, Global};
use std::slice;
use timetable::{LATEST_MOMENT, Rides};

// The last moment within the minutes, if any are given.
fn last_of(depart: u32, minutes: Option<u16>) -> Option<u32>
    requires { depart ≤ LATEST_MOMENT }
    ensures { result ≡ last_of depart minutes }
{
    match minutes {
        Some(minutes) => Some(depart + u32::from(minutes) * 60),
        None => None,
    }
}

// A stop that one reaches who leaves at the moment, as it is reported.
fn tell_stop(basis: &Basis, depart: u32, reached: Reached) -> ReachedStop<'_>
    requires sound { IsSound basis.now }
    requires known { reached.stop < stops_of basis.now.timetable }
    ensures { TellsStop basis.now depart reached result }
{
    ReachedStop {
        stop: basis.names().stop(reached.stop),
        arrives: basis.day_time(reached.arrival),
        rides: reached.rides,
        seconds: reached.arrival.saturating_sub(depart),
    }
}

// Stops that one reaches who leaves at the moment, as they are reported.
fn tell_stops<'a>(
    alloc: Global,
    basis: &'a Basis,
    depart: u32,
    list: &[Reached],
) -> Result<Vec<ReachedStop<'a>>, AllocError>
    requires sound { IsSound basis.now }
    requires known { All (λ r. r.stop < stops_of basis.now.timetable) list.now }
    ensures { IfOk result (λ stops. AllZip (TellsStop basis.now depart) list.now stops.items) }
{
    let mut stops = Vec::with_capacity(alloc, list.len())?;
    for reached in list {
        let stop = tell_stop(basis, depart, *reached);
        stops.extend_from_slice(slice::from_ref(&stop))?;
    }
    Ok(stops)
}

// The stops that one reaches who leaves the stop of an id at the moment.
fn found_reach<'a>(
    alloc: Global,
    basis: &'a Basis,
    from: &'a str,
    moment: Option<u32>,
    minutes: Option<u16>,
    rides: Rides,
) -> Result<Reach<'a>, Fault<'a>>
    ensures reach { IfOk result (IsReach basis.now rides from.now moment minutes) }
    ensures refusal { IfErr result (IsUnreached basis.now from.now moment) }
{
    let Some(source) = basis.stop_named(from) else {
        return Err(Fault::Question(Refusal::UnknownStop(from)));
    };
    let Some(depart) = covered_moment(basis, moment) else {
        return Err(Fault::Question(Refusal::NotCovered));
    };
    let last = last_of(depart, minutes);
    let list = reach(alloc, basis.timetable(), source, depart, rides, last)?;
    Ok(Reach {
        from,
        departs: basis.day_time(depart),
        stops: tell_stops(alloc, basis, depart, &list)?,
    })
}

/// The stops at which one can be who leaves the stop of an id at the moment, with at most `rides` rides; those within `minutes`, if
/// any are given. A station is no stop.
pub fn reach_from<'a>(
    alloc: Global,
    basis: &'a Basis,
    from: &'a str,
    moment: Option<u32>,
    minutes: Option<u16>,
    rides: Rides,
) -> Result<Report<'a>, Fault<'a>>
    ensures reach { IfOk result (ReportsReach (IsReach basis.now rides from.now moment minutes)) }
    ensures refusal { IfErr result (IsUnreached basis.now from.now moment) }
{
    match found_reach(alloc, basis, from, moment, minutes, rides) {
        Ok(reach) => Ok(Report::Reached(reach)),
        Err(fault) => Err(fault),
    }
}
