//! Asking many questions.

ghost use Rattle.std.specs.Prelude.{◌≤◌, ◌<◌, length};
ghost use Rattle.timetable.specs.Table.{stops_of};
ghost use Rattle.rounds.specs.Scratch.{IsMadeFor as IsScratchFor};

use crate::questions::{Question, Questions};
use crate::total::Total;
use direct_connections::Network;
use pattern_query::{Patterns, ask};
use rounds::Scratch;
use std::alloc::AllocError;
use timetable::{LATEST_MOMENT, Timetable, plain_direct};

// When the best ride that answers the question arrives, by the lines.
fn ride_arrival(network: &Network, question: Question) -> Option<u32> {
    let Question { from, to, depart } = question;
    let leg = network.earliest(from, to, depart)?;
    Some(network.timetable().arrival_of(leg))
}

// When the best ride that answers the question arrives, looking at each trip.
fn plain_arrival(timetable: &Timetable, question: Question) -> Option<u32> {
    let leg = plain_direct(timetable, question.from, question.to, question.depart)?;
    Some(timetable.arrival_of(leg))
}

// When the last of the best journeys that answer the question arrives.
fn journey_arrival(
    timetable: &Timetable,
    scratch: &mut Scratch,
    question: Question,
) -> Result<Option<u32>, AllocError>
    requires table { IsScratchFor scratch.old timetable.now }
    requires from { question.from < stops_of timetable.now }
    requires to { question.to < stops_of timetable.now }
    requires early { question.depart ≤ LATEST_MOMENT }
    ensures { IsScratchFor scratch.new timetable.now }
{
    let Question { from, to, depart } = question;
    let points = scratch.scan(timetable, from, to, depart)?;
    Ok(points.last().map(|point| point.arrival))
}

// When the last of the best journeys that answer the question arrives, by the tree of the stop that it is from.
fn tree_arrival(network: &Network, trees: &[Patterns], question: Question) -> Option<u32>
    requires from { question.from < length trees.now }
    requires early { question.depart ≤ LATEST_MOMENT }
{
    let Question { from, to, depart } = question;
    let answer = ask(network, &trees[from.number()], to, depart);
    let point = answer.points().last()?;
    Some(point.arrival())
}

/// Asks for the least arrival of one ride, `queries` times: by the lines. Between fewer than two stops nothing is asked.
pub fn ask_direct(network: &Network, queries: u32, seed: u32) -> Total {
    let mut total = Total::default();
    let stops = network.timetable().stops();
    let Some(mut questions) = Questions::new(seed, stops, stops) else {
        return total;
    };
    for _ in 0..queries {
        let question = questions.ask();
        total.add(ride_arrival(network, question));
    }
    total
}

/// Asks for the least arrival of one ride, `queries` times: looking at each trip. Between fewer than two stops nothing is asked.
pub fn ask_plain(timetable: &Timetable, queries: u32, seed: u32) -> Total {
    let mut total = Total::default();
    let Some(mut questions) = Questions::new(seed, timetable.stops(), timetable.stops()) else {
        return total;
    };
    for _ in 0..queries {
        total.add(plain_arrival(timetable, questions.ask()));
    }
    total
}

/// Asks for the best journeys of at most as many rides as the scratch has, `queries` times, from the first `sources` stops: by the rounds.
/// The arrival that counts is the earliest one. Between fewer than two stops, and from no sources, nothing is asked. It fails only if
/// memory runs out.
pub fn ask_rounds(
    timetable: &Timetable,
    scratch: &mut Scratch,
    sources: usize,
    queries: u32,
    seed: u32,
) -> Result<Total, AllocError>
    requires { IsScratchFor scratch.old timetable.now }
    ensures { IsScratchFor scratch.new timetable.now }
{
    let mut total = Total::default();
    let Some(mut questions) = Questions::new(seed, sources, timetable.stops()) else {
        return Ok(total);
    };
    for _ in 0..queries {
        total.add(journey_arrival(timetable, scratch, questions.ask())?);
    }
    Ok(total)
}

/// Asks for the best journeys, `queries` times, from the sources of the trees: from these trees. The arrival that counts is the earliest
/// one. Between fewer than two stops, and from no trees, nothing is asked.
pub fn ask_trees(network: &Network, trees: &[Patterns], queries: u32, seed: u32) -> Total {
    let mut total = Total::default();
    let Some(mut questions) = Questions::new(seed, trees.len(), network.timetable().stops()) else {
        return total;
    };
    for _ in 0..queries {
        let question = questions.ask();
        total.add(tree_arrival(network, trees, question));
    }
    total
}
