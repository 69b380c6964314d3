//! Who builds trees in a thread.

ghost use Rattle.std.specs.Prelude.{◌≡◌};
ghost use Rattle.section_store.specs.Sections.{form_of};

use crate::builder::Builder;
use crate::gate::Gate;
use crate::halt::Leave;
use crate::workshop::Workshop;
use shared_ledger::{Basis, Seat, Shared};
use std::sync::Wait;
use timetable::StopId;
use work_ledger::Claimed;

// Claims a source; none if none is given out, or memory is refused.
fn claim<B: Basis, R: Wait>(
    rt: &R,
    shared: &Shared<B>,
    seat: &Seat,
    _leave: Leave<'_>,
) -> Option<StopId> {
    let Ok(claimed) = shared.claim(rt, seat) else {
        return None;
    };
    match claimed {
        Claimed::Source(source) => Some(source),
        Claimed::Closed => None,
    }
}

// Builds the tree of a source and hands it in; if there is none, or it isn't taken in, the source is given back.
fn build_one<B: Basis, R: Wait, G: Gate>(
    workshop: &Workshop<'_, B, R, G>,
    seat: &Seat,
    bench: &mut Builder,
    source: StopId,
)
    requires own { bench.old ≡ form_of B.table B.rides }
    ensures same { bench.new ≡ bench.old }
{
    workshop.gate.before(seat.number(), source);
    let built = bench.build(workshop.alloc, source);
    workshop.gate.after(seat.number(), source);
    if let Some(tree) = built {
        let Err(_refused) = workshop.shared.hand_in_own(workshop.rt, seat, tree) else {
            return;
        };
    }
    let _given = workshop.shared.give_back(workshop.rt, seat, source);
}

// The source to build next. None once no source is given out, memory is refused, or the flag is set; then the ledger is stopped.
fn next_source<B: Basis, R: Wait, G: Gate>(
    workshop: &Workshop<'_, B, R, G>,
    seat: &Seat,
) -> Option<StopId> {
    let rt = workshop.rt;
    let shared = workshop.shared;
    let Some(leave) = workshop.stop.leave(rt) else {
        let _stopped = shared.stop(rt, seat);
        return None;
    };
    claim(rt, shared, seat, leave)
}

// Builds the tree of a first source, then claims sources and builds their trees, until no more are to be built.
fn build_from<B: Basis, R: Wait, G: Gate>(
    workshop: &Workshop<'_, B, R, G>,
    seat: &Seat,
    bench: &mut Builder,
    first: StopId,
)
    requires own { bench.old ≡ form_of B.table B.rides }
{
    build_one(workshop, seat, bench, first);
    for _ in workshop.rt.forever() {
        let Some(source) = next_source(workshop, seat) else {
            return;
        };
        build_one(workshop, seat, bench, source);
    }
}

// The same, but what building needs is made after the first claim.
fn build_at<B: Basis, R: Wait, G: Gate>(workshop: &Workshop<'_, B, R, G>, seat: &Seat) {
    let Some(first) = next_source(workshop, seat) else {
        return;
    };
    let Ok(mut bench) = Builder::new(workshop.alloc, workshop.network, workshop.rides) else {
        let _given = workshop.shared.give_back(workshop.rt, seat, first);
        return;
    };
    build_from(workshop, seat, &mut bench, first);
}

/// Takes a seat, claims sources and builds their trees, until no more are to be built. What building needs is made after the first claim.
/// The seat is left however this ends.
pub fn work<B: Basis, R: Wait, G: Gate>(workshop: &Workshop<'_, B, R, G>) {
    let Some(seat) = workshop.take_seat() else {
        return;
    };
    let sitting = workshop.shared.sit(workshop.rt, seat);
    build_at(workshop, sitting.seat());
}
