//! A stop of a table.

ghost use Rattle.std.specs.Prelude.{◌≡◌, IfOk, map};

use std::alloc::{AllocError, Global};
use timetable::StopId;

/// A stop of a table, with its id as it is listed.
#[derive(Clone, Copy)]
pub struct Place<'a> {
    pub id: &'a str,
    pub stop: StopId,
}

/// The stops of places. It fails only if memory runs out.
pub(crate) fn stops_of(alloc: Global, places: &[Place<'_>]) -> Result<Vec<StopId>, AllocError>
    ensures { IfOk result (λ stops. stops.items ≡ map (λ place. place.stop) places.now) }
{
    places.iter().map(|place| place.stop).collect(alloc)
}
