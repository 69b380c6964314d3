//! What a ride or a walk has.

use answer_lines::{DayTime, Stage};
use itinerary_texts::Kind;

/// How one gets on by a ride or a walk.
pub(crate) fn kind_of(stage: &Stage) -> Kind {
    match stage {
        Stage::Ride { .. } => Kind::Ride,
        Stage::Walk { .. } => Kind::Walk,
    }
}

/// The ids of the stops at which a ride or a walk begins and ends.
pub(crate) fn ends_of(stage: &Stage) -> (&str, &str) {
    match stage {
        Stage::Ride { from, to, .. } | Stage::Walk { from, to, .. } => (from.as_str(), to.as_str()),
    }
}

/// The trip of a ride.
pub(crate) fn trip_of(stage: &Stage) -> Option<&str> {
    match stage {
        Stage::Ride { trip, .. } => Some(trip.as_str()),
        Stage::Walk { .. } => None,
    }
}

/// When a ride departs, or a walk begins.
pub(crate) fn departure_of(stage: &Stage) -> DayTime {
    match stage {
        Stage::Ride { departs, .. } | Stage::Walk { departs, .. } => *departs,
    }
}

/// When a ride or a walk arrives.
pub(crate) fn arrival_of(stage: &Stage) -> DayTime {
    match stage {
        Stage::Ride { arrives, .. } | Stage::Walk { arrives, .. } => *arrives,
    }
}
