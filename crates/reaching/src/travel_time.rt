//! Travel times to a stop.

use timetable::StopId;

/// For one stop: the seconds from leaving until one is there, over the seconds of a window of departures. A second at which one can't get
/// there counts as slower than any other.
#[derive(Clone, Copy)]
pub struct TravelTimes {
    pub stop: StopId,
    /// At the best second of the window.
    pub least: u32,
    /// The least time within which one is there at half of the window's seconds or more. None: one gets there at fewer.
    pub median: Option<u32>,
    /// At the worst second of the window. None: at some second one doesn't get there.
    pub greatest: Option<u32>,
}
