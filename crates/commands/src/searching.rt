//! What a command searches for, found at the timetable and printed.

ghost use Rattle.std.specs.Prelude.{◌≡◌, None, option_map};
ghost use Rattle.commands.specs.Left.{IsStoredSearch};
ghost use Rattle.commands.specs.Searches.{IsFoundBy};
ghost use Rattle.feed_commands.specs.Found.{IsFoundPrinted};
ghost use Rattle.printing.specs.Faults.{voice_of};
ghost use Rattle.printing.specs.Finished.{streams_of};

use crate::so_far::SoFar;
use command_line::{Plan, Search};
use faults::Fault;
use feed_basis::Basis;
use feed_commands::{Found, finish_found, reached, ridden, scanned};
use option_words::{Minutes, Style};
use printing::{Streams, Teller, tells_legs, voice_of};
use std::alloc::Global;
use std::io::Write;
use timetable::Rides;

// The number of minutes, if there is one.
fn number_of(minutes: Option<Minutes>) -> Option<u16>
    ensures { result ≡ option_map (λ m. m.number) minutes }
{
    match minutes {
        Some(minutes) => Some(minutes.number),
        None => None,
    }
}

/// What a search that is no task over a store finds at the timetable, to be reported in the style; or its fault.
pub fn find<'a>(
    alloc: Global,
    style: Style,
    basis: &'a Basis,
    rides: Rides,
    search: &Search<'a>,
) -> Result<Found<'a>, Fault<'a>>
    requires { ¬ IsStoredSearch search.now }
    ensures { IsFoundBy style basis.now rides search.now result }
{
    match search {
        Search::Direct { question } => ridden(alloc, basis, question),
        Search::Scan { question, legs } => {
            let legs = tells_legs(style, *legs);
            scanned(alloc, basis, rides, question, legs)
        }
        Search::Reach { question, minutes } => {
            let minutes = number_of(*minutes);
            reached(alloc, basis, rides, question, minutes)
        }
        Search::Stored { .. } => unreachable!(),
    }
}

/// Ends with what a plan found at the timetable, or its fault. Nothing is left to do.
pub fn end_found<T: Teller, O: Write + Drop, E: Write + Drop>(
    alloc: Global,
    teller: &T,
    plan: &Plan<'_>,
    basis: &Basis,
    found: Result<Found<'_>, Fault<'_>>,
    streams: Streams<O, E>,
) -> SoFar<O, E>
    ensures printed { IsFoundPrinted T.telling (voice_of plan.now) basis.now found.entry
        (streams_of streams.out streams.err) (streams_of result.streams.out result.streams.err) result.status }
    ensures none { result.left ≡ None }
{
    let mut streams = streams;
    let voice = voice_of(plan);
    let status = finish_found(alloc, teller, &voice, plan, basis, found, &mut streams);
    SoFar {
        status,
        left: None,
        streams,
    }
}
