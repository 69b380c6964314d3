//! Which journeys count.

use lines::Lines;
use std::sync::Arc;
use timetable::{Rides, Timetable};

/// The journeys that count: those of the timetable with at most `rides` rides, of one who leaves at a second from `first` to `last`. Both
/// are moments, in seconds from the start of the first covered day.
#[derive(Drop)]
pub struct Window<'a> {
    pub table: &'a Timetable,
    /// The lines of the timetable.
    pub lines: Arc<Lines>,
    pub rides: Rides,
    pub first: u32,
    pub last: u32,
}
