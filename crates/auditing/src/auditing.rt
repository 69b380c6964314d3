//! Where the answers from a tree differ first from those of the timetable.

ghost use Rattle.std.specs.Prelude.{◌<◌, ◌≤◌, IfOk, IfSome};
ghost use Rattle.pattern_tree.specs.Content.{longest};
ghost use Rattle.rounds.specs.Scratch.{IsAlike, IsMadeFor, rides_of};
ghost use Rattle.timetable.specs.Table.{stops_of};
ghost use Rattle.auditing.specs.Audits.{IsFirstDifference};
ghost use Rattle.auditing.specs.Comparing.{IsFirstStop};
ghost use Rattle.auditing.specs.Lacks.{AgreeUnmarked};

use crate::comparing::first_stop;
use crate::lacking::{has_mark, lacking_stops};
use direct_connections::Network;
use pattern_query::Patterns;
use rounds::Scratch;
use std::alloc::{AllocError, Global};
use std::sync::Arc;
use timetable::{LATEST_MOMENT, Rides, StopId};

/// The stop to which, and the moment at which, the answers from a tree differ from those of the timetable.
#[derive(Clone, Copy, Debug, PartialEq, Eq)]
pub struct Difference {
    pub to: StopId,
    pub depart: u32,
}

// The first stop to which the answers at an event differ, by a run of the rounds there.
fn first_at(
    alloc: Global,
    network: &Network,
    patterns: &Patterns,
    scratch: &mut Scratch,
    depart: u32,
    marks: &[bool],
) -> Result<Option<StopId>, AllocError>
    requires table { IsMadeFor scratch.old network.now }
    requires source { patterns.now.source < stops_of network.now }
    requires early { depart ≤ LATEST_MOMENT }
    ensures same { IsAlike scratch.old scratch.new }
    ensures first { AgreeUnmarked network.now patterns.now (rides_of scratch.old) marks.now
        → IfOk result (IsFirstStop network.now patterns.now (rides_of scratch.old) depart) }
    ensures within { IfOk result (λ found. IfSome found (λ to. to < stops_of network.now)) }
{
    let rides = scratch.rides();
    let view = scratch.run(network.timetable(), patterns.source(), depart)?;
    first_stop(alloc, network, patterns, rides, &view, depart, marks)
}

/// Where the answers from a source's tree, of one ride or more, differ first from the best numbers of all journeys of at most `rides`
/// rides: at the first event of the source, and there at the first stop. None if they agree at each event and to each stop, also those
/// at events past the covered days. It fails only if memory runs out.
///
/// The source's tree is built for it. To stops to which the given tree has all patterns of that one, the answers agree at each moment, by
/// the theorem of Transfer Patterns. Only those to the other stops are compared, by a run of the rounds at each event.
pub fn first_difference(
    alloc: Global,
    network: &Network,
    patterns: &Patterns,
    rides: Rides,
) -> Result<Option<Difference>, AllocError>
    requires { patterns.now.source < stops_of network.now }
    ensures first { longest patterns.now.pairs ≤ rides → IfOk result (IsFirstDifference network.now patterns.now rides) }
    ensures within { IfOk result (λ difference. IfSome difference (λ d. d.to < stops_of network.now)) }
{
    let table = network.timetable();
    let source = patterns.source();
    let lines = Arc::try_clone(network.shared_lines())?;
    let mut scratch = Scratch::over(alloc, table, lines, rides)?;
    let marks = lacking_stops(alloc, table, patterns, &mut scratch)?;
    if !has_mark(&marks) {
        return Ok(None);
    }
    let events = scratch.departures(alloc, table, source)?;
    for depart in &events {
        let found = first_at(alloc, network, patterns, &mut scratch, *depart, &marks)?;
        if let Some(to) = found {
            return Ok(Some(Difference {
                to,
                depart: *depart,
            }));
        }
    }
    Ok(None)
}
