//! What a search over the timetable finds.

ghost use Rattle.answering.specs.Answers.{IsDirect};
ghost use Rattle.feed_commands.specs.Finds.{IsReachFound, IsScanned, IsStopAnswer};

use crate::found::{Found, found_answer, found_connections, found_report};
use answering::{direct, scan};
use faults::Fault;
use feed_basis::Basis;
use questions::Question;
use std::alloc::Global;
use timetable::Rides;
use told_connections::{scan_within, times_of};
use told_reach::{reach_from, times_from};

/// What one ride finds: the least arrival without walks and changes.
pub fn ridden<'a>(
    alloc: Global,
    basis: &Basis,
    question: &Question<'a>,
) -> Result<Found<'a>, Fault<'a>>
    ensures { IsStopAnswer basis.now question.now (IsDirect basis.now) result }
{
    let moment = basis.moment(question.day, question.seconds);
    let answer = direct(alloc, basis, question, moment);
    found_answer(question, answer)
}

/// What the rounds find: the best arrivals, or the connections if the question asks for them.
pub fn scanned<'a>(
    alloc: Global,
    basis: &Basis,
    rides: Rides,
    question: &Question<'a>,
    legs: bool,
) -> Result<Found<'a>, Fault<'a>>
    ensures { IsScanned basis.now rides legs question.now question.now.within result }
{
    match question.within {
        None => {
            let moment = basis.moment(question.day, question.seconds);
            let answer = scan(alloc, basis, question, moment, rides, legs);
            found_answer(question, answer)
        }
        Some(within) => {
            let times = times_of(basis, question, within);
            let found = scan_within(alloc, basis, question, times, rides, legs);
            found_connections(question, found)
        }
    }
}

/// Where one can be, or how long one is on the way if the question asks for a window.
pub fn reached<'a>(
    alloc: Global,
    basis: &'a Basis,
    rides: Rides,
    question: &Question<'a>,
    minutes: Option<u16>,
) -> Result<Found<'a>, Fault<'a>>
    ensures { IsReachFound basis.now rides question.now minutes question.now.within result }
{
    match question.within {
        None => {
            let moment = basis.moment(question.day, question.seconds);
            let reached = reach_from(alloc, basis, question.from, moment, minutes, rides);
            found_report(reached)
        }
        Some(within) => {
            let times = times_of(basis, question, within);
            let (moment, until) = (times.moment, times.until);
            let timed = times_from(alloc, basis, question.from, moment, until, minutes, rides);
            found_report(timed)
        }
    }
}
