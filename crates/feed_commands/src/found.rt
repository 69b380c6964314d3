//! What a command finds, and how it is printed.

ghost use Rattle.std.specs.Prelude.{◌≡◌};
ghost use Rattle.feed_commands.specs.Found.{IsFoundPrinted, IsTold, IsToldIn, found_by, found_status, lines_of};
ghost use Rattle.printing.specs.Finished.{streams_of};

use answer_lines::{Answer, Report};
use command_line::Plan;
use connection_lines::Connections;
use faults::Fault;
use feed_basis::Basis;
use option_words::{Format, Style};
use printing::{Asked, Streams, Teller, Told, Voice, copy_of, finish};
use questions::Question;
use std::alloc::Global;
use std::io::Write;

/// What a command finds.
#[derive(Drop)]
pub enum Found<'a> {
    /// An answer to a question.
    Answer(Question<'a>, Answer),
    /// The connections that a question asks for.
    Connections(Question<'a>, Connections),
    /// What a store has, or what came of a build.
    Report(Report<'a>),
}

/// An answer to a question as what is found, or its fault.
pub fn found_answer<'a>(
    question: &Question<'a>,
    answer: Result<Answer, Fault<'a>>,
) -> Result<Found<'a>, Fault<'a>>
    ensures { result ≡ found_by (λ answer. Found.Answer question.now answer) answer.entry }
{
    match answer {
        Ok(answer) => Ok(Found::Answer(copy_of(question), answer)),
        Err(fault) => Err(fault),
    }
}

/// The connections that a question asks for as what is found, or its fault.
pub fn found_connections<'a>(
    question: &Question<'a>,
    connections: Result<Connections, Fault<'a>>,
) -> Result<Found<'a>, Fault<'a>>
    ensures { result ≡ found_by (λ connections. Found.Connections question.now connections) connections.entry }
{
    match connections {
        Ok(connections) => Ok(Found::Connections(copy_of(question), connections)),
        Err(fault) => Err(fault),
    }
}

/// A report as what is found, or its fault.
pub fn found_report<'a>(report: Result<Report<'a>, Fault<'a>>) -> Result<Found<'a>, Fault<'a>>
    ensures { result ≡ found_by (λ report. Found.Report report) report.entry }
{
    match report {
        Ok(report) => Ok(Found::Report(report)),
        Err(fault) => Err(fault),
    }
}

// What is found, as lines.
fn as_lines<'a>(found: Found<'a>) -> Told<'a>
    ensures { result ≡ lines_of found.entry }
{
    match found {
        Found::Answer(_, answer) => Told::Answer(answer),
        Found::Connections(_, connections) => Told::Connections(connections),
        Found::Report(report) => Told::Report(report),
    }
}

// The status to end with: that of a report.
fn found_status(found: &Found<'_>) -> u8
    ensures { result ≡ found_status found.now }
{
    match found {
        Found::Answer(..) | Found::Connections(..) => 0,
        Found::Report(report) => report.status(),
    }
}

// A question as the plan asks it.
fn asked_of<'p, 'a>(plan: &Plan<'p>, question: &Question<'a>) -> Asked<'p, 'a> {
    Asked {
        settings: plan.settings,
        command: plan.command.name(),
        question: copy_of(question),
    }
}

// What is found, as a text in a format.
fn in_format<T: Teller>(
    alloc: Global,
    teller: &T,
    format: Format,
    plan: &Plan<'_>,
    basis: &Basis,
    found: &Found<'_>,
) -> Result<Told<'static>, Fault<'static>>
    ensures { IsToldIn T.telling format basis.now found.now result }
{
    let text = match found {
        Found::Answer(question, answer) => {
            let asked = asked_of(plan, question);
            teller.answer(alloc, format, &asked, basis, answer)
        }
        Found::Connections(question, connections) => {
            let asked = asked_of(plan, question);
            teller.connections(alloc, format, &asked, basis, connections)
        }
        Found::Report(report) => {
            let command = plan.command.name();
            teller.report(alloc, format, command, &plan.settings, report)
        }
    };
    match text {
        Ok(text) => Ok(Told::Text {
            text,
            status: found_status(found),
        }),
        Err(_) => Err(Fault::Memory),
    }
}

// What is found, in the style; or its fault.
fn told<'a, T: Teller>(
    alloc: Global,
    teller: &T,
    style: Style,
    plan: &Plan<'_>,
    basis: &Basis,
    found: Result<Found<'a>, Fault<'a>>,
) -> Result<Told<'a>, Fault<'a>>
    ensures { IsTold T.telling style basis.now found.entry result }
{
    let found = match found {
        Ok(found) => found,
        Err(fault) => return Err(fault),
    };
    match style {
        Style::Lines => Ok(as_lines(found)),
        Style::Told(format) => in_format(alloc, teller, format, plan, basis, &found),
    }
}

/// Prints what a plan found as the voice says it, or says its fault. Gives the status.
pub fn finish_found<'a, T: Teller, O: Write + Drop, E: Write + Drop>(
    alloc: Global,
    teller: &T,
    voice: &Voice<'_>,
    plan: &Plan<'_>,
    basis: &Basis,
    found: Result<Found<'a>, Fault<'a>>,
    streams: &mut Streams<O, E>,
) -> u8
    ensures { IsFoundPrinted T.telling voice.now basis.now found.entry
        (streams_of streams.old.out streams.old.err) (streams_of streams.new.out streams.new.err) result }
{
    let told = told(alloc, teller, voice.style, plan, basis, found);
    finish(alloc, teller, voice, told, streams)
}
