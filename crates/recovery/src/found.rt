//! What was read of a store.

use section_store::StopSet;
use timetable::StopId;

/// What was read of a store: the sources of its trees, in order and as a set, and the place of the gate that comes next.
#[derive(Drop)]
pub(crate) struct Found {
    pub(crate) stored: Vec<StopId>,
    pub(crate) present: StopSet,
    pub(crate) place: u64,
}
