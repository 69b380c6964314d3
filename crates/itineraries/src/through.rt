//! The stops that a ride calls at in between.

use answer_lines::Stage;
use feed_basis::Basis;
use std::alloc::{AllocError, Global};
use timetable::{Call, Leg};

// The id of a call's stop.
fn stop_at<'a>(basis: &'a Basis, call: &Call) -> &'a str {
    if call.stop.number() < basis.timetable().stops() {
        basis.names().stop(call.stop)
    } else {
        ""
    }
}

// The calls of a ride between its ends.
fn calls_between<'a>(basis: &'a Basis, leg: Leg) -> Option<&'a [Call]> {
    let instance = basis.timetable().instances().get(leg.instance as usize)?;
    instance
        .calls()
        .get(usize::from(leg.board) + 1..usize::from(leg.alight))
}

/// The ids of the stops that a ride calls at between its ends; none of a walk. It fails only if memory runs out.
pub(crate) fn stops_between<'a>(
    alloc: Global,
    basis: &'a Basis,
    stage: &Stage,
) -> Result<Vec<&'a str>, AllocError> {
    let mut stops = Vec::new(alloc);
    if let Stage::Ride { leg, .. } = stage
        && let Some(calls) = calls_between(basis, *leg)
    {
        for call in calls {
            stops.push(stop_at(basis, call))?;
        }
    }
    Ok(stops)
}
