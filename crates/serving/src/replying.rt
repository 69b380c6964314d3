//! The reply to a line.

ghost use Rattle.std.specs.Prelude.{◌≡◌, ◌≤◌, List, None, ℕ};
ghost use Rattle.std.specs.List.{All};
ghost use Rattle.question_lines.specs.Questions.{IsQuestion};
ghost use Rattle.serving.specs.Answers.{IsOver, IsReply, IsTold, refused_by};
ghost use Rattle.serving.specs.Tellings.{IsAsking};
ghost use Rattle.feed_basis.specs.Points.{IsKnownJourney};

use crate::windows::reply_within;
use answer_lines::Answer;
use board::Reader;
use feed_basis::{Basis, told};
use planner::{AskFault, Planner};
use questions::Question;
use reply_lines::{Refusal, Reply};
use std::alloc::Global;
use timetable::LATEST_MOMENT;

// The journeys as they are reported; if memory is refused, that is replied.
fn answer_of(
    alloc: Global,
    basis: &Basis,
    legs: bool,
    journeys: &[pattern_query::Point],
) -> Reply<'static>
    requires early { All (λ p. p.departure ≤ LATEST_MOMENT) journeys.now }
    requires known { All (λ p. IsKnownJourney basis.now p.departure p) journeys.now }
    ensures { IsTold basis.now legs journeys.now result }
{
    match told(alloc, basis, legs, journeys) {
        Ok(points) => Reply::Answer(Answer::Points(points)),
        Err(_) => Reply::Refused(Refusal::Memory),
    }
}

// Why a planner gives no answer, as it is replied.
fn refused_by(fault: AskFault<'_>) -> Refusal<'_>
    ensures { result ≡ refused_by fault.entry }
{
    match fault {
        AskFault::BoardRefused => Refusal::BoardRefused,
        AskFault::Question(refusal) => Refusal::Question(refusal),
    }
}

// The reply to a question that asks for no connections, on one look of the reader. A time of a day that isn't covered is later than each
// covered moment.
fn reply_to<'a>(
    alloc: Global,
    planner: &'a Planner,
    basis: &Basis,
    legs: bool,
    reader: Reader,
    question: &Question<'a>,
) -> (Reader, Reply<'a>)
    requires over { IsOver basis.now planner.now }
    requires own { reader.origin.form ≡ planner.now.form }
    requires alone { question.now.within ≡ None }
    ensures { (line : List ℕ) → IsQuestion line question.now → IsReply planner.now basis.now legs line reader result.0 result.1 }
{
    // It says that the names know the timetable's stops and trips.
    let _names = basis.names();
    let depart = basis
        .moment(question.day, question.seconds)
        .unwrap_or(u32::MAX);
    let (reader, answer) = planner.ask(reader, question.from, question.to, depart);
    let reply = match answer {
        Ok(answer) => answer_of(alloc, basis, legs, answer.points()),
        Err(fault) => Reply::Refused(refused_by(fault)),
    };
    (reader, reply)
}

/// The reply to a line that is this question, or none; the reader comes back.
pub(crate) fn reply_of<'a>(
    alloc: Global,
    planner: &'a Planner,
    basis: &'a Basis,
    legs: bool,
    reader: Reader,
    question: &Option<Question<'a>>,
) -> (Reader, Reply<'a>)
    requires over { IsOver basis.now planner.now }
    requires own { reader.origin.form ≡ planner.now.form }
    ensures { (line : List ℕ) → IsAsking line question.now → IsReply planner.now basis.now legs line reader result.0 result.1 }
{
    let Some(question) = question else {
        return (reader, Reply::Refused(Refusal::BadLine));
    };
    match question.within {
        None => reply_to(alloc, planner, basis, legs, reader, question),
        Some(within) => reply_within(alloc, planner, basis, legs, reader, question, within),
    }
}
