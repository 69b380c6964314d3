//! Where texts of trees stand.

use timetable::StopId;

/// Where the text of a tree stands in its part's file.
#[derive(Clone, Copy, Debug)]
pub(crate) struct Entry {
    /// Whose tree it is.
    pub(crate) source: StopId,
    /// The place of the text's first byte.
    pub(crate) place: u64,
    /// How many bytes the text has.
    pub(crate) size: u64,
}

/// Where the text of a stop's tree stands, of several parts.
#[derive(Clone, Copy, Debug)]
pub struct Spot {
    /// The index of the part, by the order in which parts were added.
    pub(crate) part: usize,
    pub(crate) place: u64,
    pub(crate) size: u64,
}
