//! What the workers of one build share.

ghost use Rattle.std.specs.Prelude.{◌≡◌};
ghost use Rattle.section_store.specs.Sections.{form_of};

use crate::gate::Gate;
use crate::halt::Halt;
use direct_connections::Network;
use shared_ledger::{Basis, Seat, Shared};
use std::alloc::Global;
use std::sync::{Mutex, Wait};
use timetable::Rides;

/// What the workers of one build share. The network and the rides are those of the ledger. Who has none of the seats takes one of `seats`.
#[derive(Drop)]
pub struct Workshop<'a, B: Basis, R: Wait, G: Gate> {
    pub rt: &'a R,
    pub alloc: Global,
    pub network: &'a Network,
    pub rides: Rides,
    pub shared: &'a Shared<B>,
    pub seats: &'a Mutex<Vec<Seat>>,
    pub gate: &'a G,
    pub stop: &'a Halt,
    pub ghost own: { form_of network.now rides ≡ form_of B.table B.rides },
}

impl<'a, B: Basis, R: Wait, G: Gate> Workshop<'a, B, R, G> {
    // A seat that nobody has; none if all are taken.
    pub(crate) fn take_seat(&self) -> Option<Seat> {
        self.seats.lock(self.rt).pop()
    }

    /// Leaves a seat at which nobody sits, since no thread could be made for a worker.
    pub fn leave_seat(&self) {
        if let Some(seat) = self.take_seat() {
            self.shared.leave(self.rt, seat);
        }
    }
}
