//! A stop that one can reach.

use timetable::StopId;

/// A stop that one can reach: the earliest arrival there, in seconds from the start of the first covered day, and the fewest rides with
/// which one arrives then.
#[derive(Clone, Copy)]
pub struct Reached {
    pub stop: StopId,
    pub arrival: u32,
    pub rides: u8,
}
