//! How long one is on the way, as it is reported.

ghost use Rattle.std.specs.Prelude.{◌≡◌, ◌<◌, IfErr, IfOk, filter};
ghost use Rattle.std.specs.List.{All, AllZip};
ghost use Rattle.timetable.specs.Table.{stops_of};
ghost use Rattle.feed_basis.specs.Basis.{IsSound};
ghost use Rattle.reaching.specs.TravelTimes.{AreTravelTimes};
ghost use Rattle.told_reach.specs.Times.{AreTimes, IsUntimed, ReportsTimes, TellsTimes, is_within};

use answer_lines::{Report, TimedStop, TimedStops};
use answering::covered_moment;
use faults::Fault;
use feed_basis::Basis;
use pattern_query::Refusal;
use reaching::{TravelTimes, travel_times};
use rounds::Scratch;
use std::alloc::{AllocError, Global};
use std::slice;
use timetable::{Rides, StopId};

// Whether one is at a stop within the minutes at some second, if any are given.
fn is_within(minutes: Option<u16>, times: &TravelTimes) -> bool
    ensures { result ≡ is_within minutes times.now }
{
    match minutes {
        Some(minutes) => times.least <= u32::from(minutes) * 60,
        None => true,
    }
}

// Keeps the stops that are within the minutes, if any are given.
fn keep_within(list: &mut Vec<TravelTimes>, minutes: Option<u16>)
    ensures { list.new.items ≡ filter (is_within minutes) list.old.items }
{
    list.retain(|times| is_within(minutes, times));
}

// The travel times of one who leaves a stop within a window.
fn timed(
    alloc: Global,
    basis: &Basis,
    from: StopId,
    first: u32,
    last: u32,
    rides: Rides,
) -> Result<Vec<TravelTimes>, AllocError>
    requires { from < stops_of basis.now.timetable }
    ensures { IfOk result (λ list. AreTravelTimes basis.now.timetable rides from first last list.items) }
{
    let mut scratch = Scratch::new(alloc, basis.timetable(), rides)?;
    travel_times(alloc, basis.timetable(), &mut scratch, from, first, last)
}

// The travel times of a stop, as they are reported.
fn tell_times(basis: &Basis, times: TravelTimes) -> TimedStop<'_>
    requires sound { IsSound basis.now }
    requires known { times.stop < stops_of basis.now.timetable }
    ensures { TellsTimes basis.now times result }
{
    TimedStop {
        stop: basis.names().stop(times.stop),
        least: times.least,
        median: times.median,
        greatest: times.greatest,
    }
}

// The travel times of stops, as they are reported.
fn tell_all<'a>(
    alloc: Global,
    basis: &'a Basis,
    list: &[TravelTimes],
) -> Result<Vec<TimedStop<'a>>, AllocError>
    requires sound { IsSound basis.now }
    requires known { All (λ t. t.stop < stops_of basis.now.timetable) list.now }
    ensures { IfOk result (λ stops. AllZip (TellsTimes basis.now) list.now stops.items) }
{
    let mut stops = Vec::with_capacity(alloc, list.len())?;
    for times in list {
        let stop = tell_times(basis, *times);
        stops.extend_from_slice(slice::from_ref(&stop))?;
    }
    Ok(stops)
}

// The travel times of one who leaves the stop of an id from the moment to the last one.
fn found_times<'a>(
    alloc: Global,
    basis: &'a Basis,
    from: &'a str,
    moment: Option<u32>,
    until: Option<u32>,
    minutes: Option<u16>,
    rides: Rides,
) -> Result<TimedStops<'a>, Fault<'a>>
    ensures times { IfOk result (AreTimes basis.now rides from.now moment until minutes) }
    ensures refusal { IfErr result (IsUntimed basis.now from.now moment until) }
{
    let Some(source) = basis.stop_named(from) else {
        return Err(Fault::Question(Refusal::UnknownStop(from)));
    };
    let Some(first) = covered_moment(basis, moment) else {
        return Err(Fault::Question(Refusal::NotCovered));
    };
    let Some(last) = covered_moment(basis, until) else {
        return Err(Fault::Question(Refusal::NotCovered));
    };
    let mut list = timed(alloc, basis, source, first, last, rides)?;
    keep_within(&mut list, minutes);
    Ok(TimedStops {
        from,
        first: basis.day_time(first),
        last: basis.day_time(last),
        stops: tell_all(alloc, basis, &list)?,
    })
}

/// How long one is on the way who leaves the stop of an id at a second from `moment` to `until`, with at most `rides` rides. For each stop
/// these are the least, the median and the greatest number of seconds. Those of the stops where one is within `minutes`, if any are given.
/// A station is no stop.
pub fn times_from<'a>(
    alloc: Global,
    basis: &'a Basis,
    from: &'a str,
    moment: Option<u32>,
    until: Option<u32>,
    minutes: Option<u16>,
    rides: Rides,
) -> Result<Report<'a>, Fault<'a>>
    ensures times { IfOk result (ReportsTimes (AreTimes basis.now rides from.now moment until minutes)) }
    ensures refusal { IfErr result (IsUntimed basis.now from.now moment until) }
{
    match found_times(alloc, basis, from, moment, until, minutes, rides) {
        Ok(times) => Ok(Report::Timed(times)),
        Err(fault) => Err(fault),
    }
}
