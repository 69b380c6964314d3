//! Ids of stops.

ghost use Rattle.std.specs.Prelude.{◌≡◌, ◌<◌, IfOk, map};
ghost use Rattle.std.specs.List.{All};
ghost use Rattle.timetable.specs.Table.{stops_of};
ghost use Rattle.store_terms.specs.Stores.{ids_of};

use feed_basis::Basis;
use std::alloc::{AllocError, Global};
use timetable::StopId;

/// The ids of these stops of the timetable, in their order. It fails only if memory runs out.
pub fn ids<'a>(
    alloc: Global,
    basis: &'a Basis,
    stops: &[StopId],
) -> Result<Vec<&'a str>, AllocError>
    requires { All (λ s. s < stops_of basis.now.timetable) stops.now }
    ensures { IfOk result (λ ids. map (λ id. id.now) ids.items ≡ ids_of basis.now.names stops.now) }
{
    let mut ids = Vec::with_capacity(alloc, stops.len())?;
    for stop in stops {
        ids.push(basis.names().stop(*stop))?;
    }
    Ok(ids)
}
