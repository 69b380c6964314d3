//! The store that a question is answered from.

ghost use Rattle.std.specs.Prelude.{◌≡◌, ◌↔◌, MatchResult};
ghost use Rattle.store_answers.specs.Opened.{Shows};
ghost use Rattle.store_terms.specs.Stores.{IsUnopened, OnlyFailing, form_over};

use disk_model::Disk;
use faults::Fault;
use feed_basis::Basis;
use pattern_query::place_named;
use questions::Question;
use std::alloc::Global;
use store_excerpt::Excerpt;
use timetable::Rides;
use told_connections::stops_of_any;

/// Opens the store in the file of the disk, to answer a question between places, each a stop or a station. The file is recovered, and a
/// fresh one begun; of its trees only those are kept that the question leaves from. The disk comes back with each fault.
pub(crate) fn open_for<'a, D: Disk>(
    alloc: Global,
    basis: &Basis,
    rides: Rides,
    disk: D,
    question: &Question<'_>,
) -> Result<Excerpt<D>, (Fault<'a>, D)>
    ensures opened { D.honest disk → MatchResult result
        (λ excerpt. Shows basis.now rides (D.state disk) (D.state excerpt.disk) question.now excerpt.stored excerpt.board)
        (λ refused. IsUnopened (form_over basis.now rides) (D.state disk) (D.state refused.1) refused.0) }
    ensures device { MatchResult result (λ excerpt. D.failures excerpt.disk ≡ D.failures disk)
        (λ refused. OnlyFailing (D.failures disk) (D.failures refused.1) refused.0) }
    ensures honest { MatchResult result (λ excerpt. D.honest disk ↔ D.honest excerpt.disk)
        (λ refused. D.honest disk ↔ D.honest refused.1) }
{
    let place = place_named(basis.names(), question.from);
    let froms = stops_of_any(&place);
    match Excerpt::open(alloc, disk, basis.shared(), rides, froms) {
        Ok(excerpt) => Ok(excerpt),
        Err((fault, disk)) => Err((Fault::from(fault), disk)),
    }
}
