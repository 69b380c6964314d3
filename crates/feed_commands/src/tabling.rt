//! A table of travel times between the stops of two files.

ghost use Rattle.std.specs.Prelude.{◌≡◌, ◌⊎◌, Contains, IfNone, IfSome, List, MatchResult, ℕ};
ghost use Rattle.feed_commands.specs.Matrices.{AreListed, IsListFaultSaid, IsMatrixRun, IsMatrixTold, IsTabled, IsWindow};
ghost use Rattle.feed_commands.specs.Matrices.{IsPlace, IsPlaceSaid, unknown_in};
ghost use Rattle.program_system.specs.World.{view_of};
ghost use Rattle.printing.specs.Finished.{streams_of};
ghost use Rattle.stop_lists.specs.Lists.{Explains, IsContent, IsList, ids_in};

use faults::Fault;
use feed_basis::Basis;
use option_words::Workers;
use pattern_query::Refusal;
use printing::{Streams, Voice, say_no_memory, say_unwritten, tell_fault};
use program_system::System;
use questions::Question;
use std::alloc::Global;
use std::io::{ErrorKind, Write};
use stop_lists::{ListFault, ListFaultLines, PlaceLine, ids_of, line_of, read_list};
use streams::{PrintFault, Stream};
use timetable::Rides;
use told_connections::times_of;
use told_matrix::{Asked, matrix_of, print_matrix};
use travel_matrix::Crew;

/// What a table is made of: the timetable, and the question whose places are the files of the stops. `progress` is whether the words ask
/// for reports of progress.
#[derive(Clone, Copy)]
pub struct Tabling<'a> {
    pub basis: &'a Basis,
    pub rides: Rides,
    pub question: &'a Question<'a>,
    pub workers: Workers,
    pub progress: bool,
}

// The bytes of both files: of the stops to leave from, and of those to go to.
#[derive(Clone, Copy)]
struct Lists<'a> {
    from: &'a [u8],
    to: &'a [u8],
}

// The bytes of the file of that path, or why it isn't read.
fn read_file<S: System>(alloc: Global, system: &S, path: &str) -> Result<Vec<u8>, ListFault>
    ensures { (bytes : List ℕ) → (S.world system.now).has path.now bytes
        → MatchResult result (λ content. IsContent bytes content.items) (Explains bytes) }
{
    match system.open_list(path) {
        Ok(reader) => read_list(alloc, reader),
        Err(error) => match error.kind() {
            ErrorKind::OutOfMemory => Err(ListFault::Memory),
            _ => Err(ListFault::ReadFailed),
        },
    }
}

// Says that the file of that path isn't read, and gives the status.
fn say_list_fault<E: Write + Drop>(path: &str, fault: ListFault, err: &mut Stream<E>) -> u8
    ensures { IsListFaultSaid path.now fault err.old err.new result }
{
    if let ListFault::Memory = fault {
        return say_no_memory(err);
    }
    err.say(ListFaultLines { path, fault });
    6
}

// The first and the last moment to leave at.
fn window_of(basis: &Basis, question: &Question<'_>) -> (Option<u32>, Option<u32>)
    ensures { IsWindow basis.now question.now question.now.within result.0 result.1 }
{
    match question.within {
        None => {
            let moment = basis.moment(question.day, question.seconds);
            (moment, moment)
        }
        Some(within) => {
            let times = times_of(basis, question, within);
            (times.moment, times.until)
        }
    }
}

// The id that no stop has, if that is the fault.
fn unknown_in<'a>(fault: &Fault<'a>) -> Option<&'a str>
    ensures { result ≡ unknown_in fault.now }
{
    match fault {
        Fault::Question(Refusal::UnknownStop(id)) => Some(id),
        _ => None,
    }
}

// Where an id stands: on which line of the file of the stops to leave from, or else of the other one. None if neither lists it.
fn place_of<'a>(question: &Question<'a>, lists: &Lists<'_>, id: &str) -> Option<PlaceLine<'a>>
    ensures place { IfSome result (λ place. IsList lists.now.from.now
        → IsPlace question.now lists.now.from.now lists.now.to.now id.now place.path.now place.line) }
    ensures none { IfNone result (IsList lists.now.from.now → IsList lists.now.to.now
        → ¬ (Contains (ids_in lists.now.from.now) id.now ⊎ Contains (ids_in lists.now.to.now) id.now)) }
{
    if let Some(line) = line_of(lists.from, id) {
        return Some(PlaceLine {
            path: question.from,
            line,
        });
    }
    let line = line_of(lists.to, id)?;
    Some(PlaceLine {
        path: question.to,
        line,
    })
}

// Says where an id stands that no stop has, and nothing after another fault.
fn say_place<E: Write + Drop>(
    question: &Question<'_>,
    lists: &Lists<'_>,
    fault: &Fault<'_>,
    err: &mut Stream<E>,
)
    ensures { IsList lists.now.from.now → IsList lists.now.to.now
        → IfSome (unknown_in fault.now) (λ id. Contains (ids_in lists.now.from.now) id.now ⊎ Contains (ids_in lists.now.to.now) id.now)
        → IsPlaceSaid question.now lists.now.from.now lists.now.to.now fault.now err.old err.new }
{
    let Some(id) = unknown_in(fault) else {
        return;
    };
    if let Some(place) = place_of(question, lists, id) {
        err.say(place);
    }
}

// Prints the table between the stops of the ids that the files list, or says why there is none. Gives the status.
fn print_table<S: System, O: Write + Drop, E: Write + Drop>(
    alloc: Global,
    system: &S,
    voice: &Voice<'_>,
    tabling: &Tabling<'_>,
    lists: &Lists<'_>,
    asked: &Asked<'_, '_>,
    streams: &mut Streams<O, E>,
) -> u8
    ensures { IsList lists.now.from.now → IsList lists.now.to.now → AreListed lists.now.from.now lists.now.to.now asked.now
        → IsTabled S.Teller.telling voice.now tabling.now.basis.now tabling.now.rides tabling.now.question.now
        lists.now.from.now lists.now.to.now asked.now
        (streams_of streams.old.out streams.old.err) (streams_of streams.new.out streams.new.err) result }
{
    let matrix = match matrix_of(alloc, tabling.basis, asked) {
        Ok(matrix) => matrix,
        Err(fault) => {
            let status = tell_fault(alloc, &system.teller(), voice, &fault, &mut streams.err);
            say_place(tabling.question, lists, &fault, &mut streams.err);
            return status;
        }
    };
    let crew = Crew {
        alloc,
        rt: system.threads(),
        workers: tabling.workers.number,
    };
    let mut meter = system.meter(tabling.progress);
    match print_matrix(
        &crew,
        tabling.basis,
        tabling.rides,
        &matrix,
        &mut streams.out,
        &mut meter,
    ) {
        Ok(()) => 0,
        Err(PrintFault::Refused) => say_unwritten(&mut streams.err),
        Err(PrintFault::Memory) => say_no_memory(&mut streams.err),
    }
}

// Prints the table between the stops that files of these bytes list, or says why there is none. Gives the status.
fn print_lists<S: System, O: Write + Drop, E: Write + Drop>(
    alloc: Global,
    system: &S,
    voice: &Voice<'_>,
    tabling: &Tabling<'_>,
    lists: &Lists<'_>,
    streams: &mut Streams<O, E>,
) -> u8
    ensures { IsList lists.now.from.now → IsList lists.now.to.now
        → IsMatrixTold S.Teller.telling voice.now tabling.now.basis.now tabling.now.rides tabling.now.question.now
        lists.now.from.now lists.now.to.now
        (streams_of streams.old.out streams.old.err) (streams_of streams.new.out streams.new.err) result }
{
    let question = tabling.question;
    let origins = match ids_of(alloc, lists.from) {
        Ok(origins) => origins,
        Err(fault) => return say_list_fault(question.from, fault, &mut streams.err),
    };
    let goals = match ids_of(alloc, lists.to) {
        Ok(goals) => goals,
        Err(fault) => return say_list_fault(question.to, fault, &mut streams.err),
    };
    let (first, last) = window_of(tabling.basis, question);
    let asked = Asked::new(&origins, &goals, first, last);
    print_table(alloc, system, voice, tabling, lists, &asked, streams)
}

/// Reads both files and prints the table of the travel times between the stops that they list, or says why there is none. Gives the
/// status.
pub fn run_matrix<S: System, O: Write + Drop, E: Write + Drop>(
    alloc: Global,
    system: &S,
    voice: &Voice<'_>,
    tabling: &Tabling<'_>,
    streams: &mut Streams<O, E>,
) -> u8
    ensures { IsMatrixRun (view_of (S.world system.now) S.Teller.telling)
        voice.now tabling.now.basis.now tabling.now.rides tabling.now.question.now
        (streams_of streams.old.out streams.old.err) (streams_of streams.new.out streams.new.err) result }
{
    let question = tabling.question;
    let from = match read_file(alloc, system, question.from) {
        Ok(from) => from,
        Err(fault) => return say_list_fault(question.from, fault, &mut streams.err),
    };
    let to = match read_file(alloc, system, question.to) {
        Ok(to) => to,
        Err(fault) => return say_list_fault(question.to, fault, &mut streams.err),
    };
    let lists = Lists {
        from: &from,
        to: &to,
    };
    print_lists(alloc, system, voice, tabling, &lists, streams)
}
