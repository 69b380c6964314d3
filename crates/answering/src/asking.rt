//! Answers to questions.

ghost use Rattle.std.specs.Prelude.{◌≡◌, ◌≤◌, ◌<◌, [], ◌∷◌, Some, IfOk, IfErr, IfSome, IfNone, true, false};
ghost use Rattle.feed_ids.specs.Names.{stops_at};
ghost use Rattle.timetable.specs.Table.{stops_of};
ghost use Rattle.answering.specs.Answers.{ArePoints, AreTreePoints, IsAnswered, IsAsked, IsDirect};
ghost use Rattle.answering.specs.Found.{AreFound};
ghost use Rattle.feed_basis.specs.Basis.{IsSound};
ghost use Rattle.feed_basis.specs.Ids.{stop_alone};
ghost use Rattle.answering.specs.Refusals.{IsCovered, IsMissing, IsUnanswered, NoneMissing};

use answer_lines::Answer;
use direct_connections::Network;
use faults::Fault;
use feed_basis::{Basis, points_of, told};
use pattern_query::{Refusal, Trees, ask_on};
use questions::Question;
use rounds::Rides;
use scanned_journeys::scan_journeys;
use std::alloc::{AllocError, Global};
use timetable::{LATEST_MOMENT, StopId};

/// The moment, if it is one and it is covered.
pub fn covered_moment(basis: &Basis, moment: Option<u32>) -> Option<u32>
    ensures moment { IfSome result (λ depart. (moment ≡ Some depart) × (depart ≤ basis.now.timetable.horizon)) }
    ensures early { IfSome result (λ depart. depart ≤ LATEST_MOMENT) }
    ensures sound { IfSome result (λ _. IsSound basis.now) }
    ensures none { IfNone result (¬ IsCovered basis.now.timetable moment) }
{
    let depart = moment?;
    if basis.timetable().covers(depart) {
        Some(depart)
    } else {
        None
    }
}

/// The stops of a question between two stops, and its moment.
#[derive(Clone, Copy)]
pub struct Asked {
    pub from: StopId,
    pub to: StopId,
    /// In seconds from the start of the first covered day.
    pub depart: u32,
}

/// The stops of the question's ids and its moment: a station is no stop.
pub fn between<'a>(
    basis: &Basis,
    question: &Question<'a>,
    moment: Option<u32>,
) -> Result<Asked, Fault<'a>>
    ensures asked { IfOk result (λ asked. IsAsked (stop_alone basis.now.names) basis.now.timetable moment question.now
        (asked.from ∷ []) (asked.to ∷ []) asked.depart) }
    ensures from { IfOk result (λ asked. asked.from < stops_of basis.now.timetable) }
    ensures to { IfOk result (λ asked. asked.to < stops_of basis.now.timetable) }
    ensures early { IfOk result (λ asked. asked.depart ≤ LATEST_MOMENT) }
    ensures sound { IfOk result (λ _. IsSound basis.now) }
    ensures refusal { IfErr result (IsUnanswered (stop_alone basis.now.names) NoneMissing basis.now.timetable moment question.now) }
{
    let Some(from) = basis.stop_named(question.from) else {
        return Err(Fault::Question(Refusal::UnknownStop(question.from)));
    };
    let Some(to) = basis.stop_named(question.to) else {
        return Err(Fault::Question(Refusal::UnknownStop(question.to)));
    };
    let Some(depart) = covered_moment(basis, moment) else {
        return Err(Fault::Question(Refusal::NotCovered));
    };
    Ok(Asked { from, to, depart })
}

// The least arrival of one ride between the stops, over the basis's network.
fn earliest_between(basis: &Basis, network: &Network, asked: Asked) -> Answer
    requires network { network.now ≡ basis.now.timetable }
    ensures { IsDirect basis.now (asked.from ∷ []) (asked.to ∷ []) asked.depart result }
{
    match network.earliest(asked.from, asked.to, asked.depart) {
        None => Answer::NoRide,
        Some(leg) => Answer::Arrive(basis.day_time(basis.timetable().arrival_of(leg))),
    }
}

/// The least arrival of one ride from the question's stop to its other one, without walks, for one who is there at the moment.
pub fn direct<'a>(
    alloc: Global,
    basis: &Basis,
    question: &Question<'a>,
    moment: Option<u32>,
) -> Result<Answer, Fault<'a>>
    ensures answer { IfOk result (IsAnswered (stop_alone basis.now.names) (IsDirect basis.now) basis.now.timetable moment question.now) }
    ensures refusal { IfErr result (IsUnanswered (stop_alone basis.now.names) NoneMissing basis.now.timetable moment question.now) }
{
    let asked = between(basis, question, moment)?;
    let network = basis.network(alloc)?;
    Ok(earliest_between(basis, &network, asked))
}

// The best numbers between the stops, over journeys of at most `rides` rides. No lines are made for them.
fn scan_numbers(
    alloc: Global,
    basis: &Basis,
    asked: Asked,
    rides: Rides,
) -> Result<Answer, AllocError>
    requires from { asked.from < stops_of basis.now.timetable }
    requires to { asked.to < stops_of basis.now.timetable }
    requires early { asked.depart ≤ LATEST_MOMENT }
    ensures { IfOk result (ArePoints basis.now rides false (asked.from ∷ []) (asked.to ∷ []) asked.depart) }
{
    let front = rounds::scan(
        alloc,
        basis.timetable(),
        asked.from,
        asked.to,
        asked.depart,
        rides,
    )?;
    let points = points_of(alloc, basis, front.as_slice())?;
    Ok(Answer::Points(points))
}

// The same with the rides and walks of a journey that has the numbers.
fn scan_with_legs(
    alloc: Global,
    basis: &Basis,
    asked: Asked,
    rides: Rides,
) -> Result<Answer, AllocError>
    requires sound { IsSound basis.now }
    requires from { asked.from < stops_of basis.now.timetable }
    requires to { asked.to < stops_of basis.now.timetable }
    requires early { asked.depart ≤ LATEST_MOMENT }
    ensures { IfOk result (ArePoints basis.now rides true (asked.from ∷ []) (asked.to ∷ []) asked.depart) }
{
    let network = basis.network(alloc)?;
    let found = scan_journeys(alloc, &network, asked.from, asked.to, asked.depart, rides)?;
    let points = told(alloc, basis, true, found.points())?;
    Ok(Answer::Points(points))
}

/// The best arrivals from stop to stop over journeys of at most `rides` rides, by rounds: no tree is asked. With `legs` the rides and
/// walks of each journey are reported, for which the timetable's lines are made.
pub fn scan<'a>(
    alloc: Global,
    basis: &Basis,
    question: &Question<'a>,
    moment: Option<u32>,
    rides: Rides,
    legs: bool,
) -> Result<Answer, Fault<'a>>
    ensures answer { IfOk result (IsAnswered (stop_alone basis.now.names) (ArePoints basis.now rides legs)
        basis.now.timetable moment question.now) }
    ensures refusal { IfErr result (IsUnanswered (stop_alone basis.now.names) NoneMissing basis.now.timetable moment question.now) }
{
    let asked = between(basis, question, moment)?;
    let answer = if legs {
        scan_with_legs(alloc, basis, asked, rides)?
    } else {
        scan_numbers(alloc, basis, asked, rides)?
    };
    Ok(answer)
}

/// Journeys of the trees between the question's places, and its moment.
pub fn journeys<'a, T: Trees>(
    basis: &'a Basis,
    network: &Network,
    trees: &T,
    question: &Question<'a>,
    moment: Option<u32>,
) -> Result<(pattern_query::Answer, u32), Fault<'a>>
    requires network { network.now ≡ basis.now.timetable }
    ensures found { IfOk result (λ found. AreFound basis.now (T.held trees.now) question.now found.1 found.0) }
    ensures moment { IfOk result (λ found. (moment ≡ Some found.1) × (found.1 ≤ basis.now.timetable.horizon)) }
    ensures early { IfOk result (λ found. found.1 ≤ LATEST_MOMENT) }
    ensures sound { IfOk result (λ _. IsSound basis.now) }
    ensures refusal { IfErr result (IsUnanswered (stops_at basis.now.names) (IsMissing basis.now (T.held trees.now) question.now)
        basis.now.timetable moment question.now) }
{
    // No covered moment is as late as the one that stands for none.
    let depart = moment.unwrap_or(u32::MAX);
    match ask_on(
        network,
        basis.names(),
        trees,
        question.from,
        question.to,
        depart,
    ) {
        Ok(journeys) => Ok((journeys, depart)),
        Err(refusal) => Err(Fault::Question(refusal)),
    }
}

/// The best journeys between the question's places, each a stop or a station, from the trees of the first place's stops. They have their
/// rides and walks if `legs` wants them. Each is a journey with its numbers, whatever the trees hold; if the trees are complete, these are
/// the best of all journeys. The network is that of the basis's timetable.
pub fn ask<'a, T: Trees>(
    alloc: Global,
    basis: &'a Basis,
    network: &Network,
    trees: &T,
    question: &Question<'a>,
    moment: Option<u32>,
    legs: bool,
) -> Result<Answer, Fault<'a>>
    requires network { network.now ≡ basis.now.timetable }
    ensures answer { IfOk result (IsAnswered (stops_at basis.now.names) (AreTreePoints basis.now (T.held trees.now) legs)
        basis.now.timetable moment question.now) }
    ensures refusal { IfErr result (IsUnanswered (stops_at basis.now.names) (IsMissing basis.now (T.held trees.now) question.now)
        basis.now.timetable moment question.now) }
{
    let (found, _) = journeys(basis, network, trees, question, moment)?;
    let points = told(alloc, basis, legs, found.points())?;
    Ok(Answer::Points(points))
}
