//! Whether the answers from a stored tree are those of the timetable.

ghost use Rattle.std.specs.Prelude.{◌≡◌, ◌↔◌, ◌∷◌, ◌<◌, [], IfErr, IfOk, IfSome, MatchResult, Some, ℕ};
ghost use Rattle.timetable.specs.Table.{stops_of};
ghost use Rattle.store_answers.specs.Audited.{IsAudited, IsComparedIn, IsUnaudited, IsUncomparedIn, TellsAudit};
ghost use Rattle.store_terms.specs.Stores.{OnlyFailing};

use answer_lines::{Audit, Differing, Report};
use auditing::{Difference, first_difference};
use disk_model::Disk;
use faults::Fault;
use feed_basis::Basis;
use pattern_query::{Refusal, Trees};
use std::alloc::Global;
use std::slice;
use store_excerpt::Excerpt;
use timetable::{Rides, StopId};

// The stop by itself; none if there is none.
fn stops_of_one<'a>(stop: &'a Option<StopId>) -> &'a [StopId]
    ensures { (s : ℕ) → stop.now ≡ Some s → result.now ≡ s ∷ [] }
{
    match stop {
        Some(stop) => slice::from_ref(stop),
        None => &[],
    }
}

/// What an audit of a stop's tree came to, with the ids of stops and by the days of the basis.
pub(crate) fn told<'a>(basis: &'a Basis, from: &'a str, difference: Option<Difference>) -> Audit<'a>
    requires { IfSome difference (λ d. d.to < stops_of basis.now.timetable) }
    ensures { TellsAudit basis.now from.now difference result }
{
    let differing = match difference {
        None => None,
        Some(difference) => Some(Differing {
            to: basis.names().stop(difference.to),
            depart: basis.day_time(difference.depart),
        }),
    };
    Audit { from, differing }
}

// Where the answers from the tree that is held of a stop differ first.
fn compared<'a, T: Trees>(
    alloc: Global,
    basis: &Basis,
    rides: Rides,
    trees: &T,
    from: &'a str,
) -> Result<Option<Difference>, Fault<'a>>
    ensures compared { IfOk result (IsComparedIn basis.now (T.held trees.now) rides from.now) }
    ensures within { IfOk result (λ difference. IfSome difference (λ d. d.to < stops_of basis.now.timetable)) }
    ensures fault { IfErr result (IsUncomparedIn basis.now (T.held trees.now) from.now) }
{
    let Some(stop) = basis.stop_named(from) else {
        return Err(Fault::Question(Refusal::UnknownStop(from)));
    };
    let Some(patterns) = trees.patterns(stop) else {
        return Err(Fault::Question(Refusal::NotStored(from)));
    };
    let Ok(network) = basis.network(alloc) else {
        return Err(Fault::Memory);
    };
    match first_difference(alloc, &network, patterns, rides) {
        Ok(difference) => Ok(difference),
        Err(_) => Err(Fault::Memory),
    }
}

/// Audits the tree that the file of the disk has of a stop: where its answers of one ride or more differ first from those of the timetable.
/// The file is recovered, and a fresh one begun; of its trees only that one is kept. The disk comes back.
pub fn audit<'a, D: Disk>(
    alloc: Global,
    basis: &'a Basis,
    rides: Rides,
    disk: D,
    from: &'a str,
) -> (Result<Report<'a>, Fault<'a>>, D)
    ensures audited { D.honest disk → MatchResult result.0
        (IsAudited basis.now rides from.now (D.state disk) (D.state result.1))
        (IsUnaudited basis.now rides from.now (D.state disk) (D.state result.1)) }
    ensures device { IfErr result.0 (OnlyFailing (D.failures disk) (D.failures result.1)) }
    ensures honest { D.honest disk ↔ D.honest result.1 }
{
    let stop = basis.stop_named(from);
    let froms = stops_of_one(&stop);
    let excerpt = match Excerpt::open(alloc, disk, basis.shared(), rides, froms) {
        Ok(excerpt) => excerpt,
        Err((fault, disk)) => return (Err(Fault::from(fault)), disk),
    };
    let found = match compared(alloc, basis, rides, &excerpt, from) {
        Ok(difference) => Ok(Report::Audited(told(basis, from, difference))),
        Err(fault) => Err(fault),
    };
    (found, excerpt.into_disk())
}
