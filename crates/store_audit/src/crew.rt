//! Who audits.

ghost use Rattle.std.specs.Prelude.{◌<◌};

use direct_connections::Network;
use std::alloc::Global;
use std::thread::Threads;
use timetable::Rides;

// How many trees of a batch are each worker's.
const SHARE: usize = 16;

/// Who audits trees: `workers` workers, each in a thread of its own. They audit by the network of a timetable, for journeys of at most
/// `rides` rides.
#[derive(Drop)]
pub struct Crew<'a, R: Threads> {
    pub alloc: Global,
    pub rt: &'a R,
    pub network: &'a Network,
    pub rides: Rides,
    pub workers: u8,
    pub ghost some: { 0 < workers },
}

impl<'a, R: Threads> Crew<'a, R> {
    /// How many trees are audited at once.
    pub(crate) fn batch(&self) -> usize {
        usize::from(self.workers) * SHARE
    }

    /// How many stops the timetable has.
    pub(crate) fn stops(&self) -> usize {
        self.network.timetable().stops()
    }
}
