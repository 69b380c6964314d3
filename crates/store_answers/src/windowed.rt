//! Connections from stored trees.

ghost use Rattle.std.specs.Prelude.{◌↔◌, IfErr, MatchResult};
ghost use Rattle.store_terms.specs.Stores.{OnlyFailing};
ghost use Rattle.store_answers.specs.Windowed.{IsStoredWindow, IsStoredRefusalWithin};

use crate::opened::open_for;
use connection_lines::Connections;
use disk_model::Disk;
use faults::Fault;
use feed_basis::Basis;
use questions::Question;
use std::alloc::Global;
use store_excerpt::laws::whole_is_complete;
use timetable::Rides;
use told_connections::{Times, ask_within};

/// The connections between the question's places, each a stop or a station, that depart from the moment to `until`, from the trees that
/// the file of the disk has. They have their rides and walks if `legs` wants them. The file is recovered, and a fresh one begun; of its
/// trees only those are kept that the question leaves from. The disk comes back.
pub fn ask_stored_within<'a, D: Disk>(
    alloc: Global,
    basis: &'a Basis,
    rides: Rides,
    disk: D,
    question: &Question<'a>,
    times: Times,
    legs: bool,
) -> (Result<Connections, Fault<'a>>, D)
    ensures answered { D.honest disk → MatchResult result.0
        (IsStoredWindow basis.now rides times question.now legs (D.state disk) (D.state result.1))
        (IsStoredRefusalWithin basis.now rides times question.now (D.state disk) (D.state result.1)) }
    ensures device { IfErr result.0 (OnlyFailing (D.failures disk) (D.failures result.1)) }
    ensures honest { D.honest disk ↔ D.honest result.1 }
{
    whole_is_complete();
    let excerpt = match open_for(alloc, basis, rides, disk, question) {
        Ok(excerpt) => excerpt,
        Err(refused) => return (Err(refused.0), refused.1),
    };
    let answer = match basis.network(alloc) {
        Ok(network) => ask_within(alloc, basis, &network, &excerpt, question, times, legs),
        Err(_) => Err(Fault::Memory),
    };
    (answer, excerpt.into_disk())
}
