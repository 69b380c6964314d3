//! Stops that may be meant by an id that no stop has.

use gtfs_text::Sheet;
use std::alloc::{AllocError, Global};
use stop_search::{StopRow, near_stops, station_stops};

/// Stops that may be meant.
#[derive(Drop)]
pub(crate) struct Meant<'s> {
    /// Whether a station has the id, and these are its stops: else they are near the id.
    pub(crate) of_station: bool,
    pub(crate) stops: Vec<StopRow<'s>>,
}

/// The stops of the sheet that may be meant by the id. It fails only if memory runs out.
pub(crate) fn meant_by<'s>(
    alloc: Global,
    sheet: &'s Sheet,
    id: &str,
) -> Result<Meant<'s>, AllocError> {
    match station_stops(alloc, sheet, id)? {
        Some(stops) => Ok(Meant {
            of_station: true,
            stops,
        }),
        None => Ok(Meant {
            of_station: false,
            stops: near_stops(alloc, sheet, id)?,
        }),
    }
}
