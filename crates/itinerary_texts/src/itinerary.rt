//! What is reported of an answer.

use crate::time::Time;
use feed_names::{Place, Trip};

/// A place and a time there.
#[derive(Drop)]
pub struct Stay {
    pub place: Place,
    pub time: Time,
}

/// How a trip repeats, by its row of frequencies.txt.
#[derive(Clone, Copy)]
pub struct Frequency {
    /// How many seconds lie between two of its departures.
    pub headway_secs: u32,
    /// Whether it departs exactly at its times, or about then.
    pub exact_times: bool,
}

/// How one gets on.
#[derive(Clone, Copy)]
pub enum Kind {
    Ride,
    Walk,
}

/// A ride or a walk of a journey.
#[derive(Drop)]
pub struct Leg {
    pub kind: Kind,
    /// The trip of a ride.
    pub trip: Option<Trip>,
    /// How the trip repeats, if it does.
    pub frequency: Option<Frequency>,
    /// Where and when the ride departs, or the walk begins.
    pub from: Stay,
    /// Where and when it arrives.
    pub to: Stay,
    /// From the departure to the arrival.
    pub seconds: Option<u32>,
    /// The stops that a ride calls at in between, only for a map.
    pub through: Vec<Place>,
}

/// A best journey.
#[derive(Drop)]
pub struct Journey {
    pub rides: u8,
    /// When its first ride or walk begins; none if no legs are reported.
    pub departure: Option<Time>,
    pub arrival: Time,
    /// From the departure to the arrival.
    pub seconds: Option<u32>,
    /// Its rides and walks, if they are reported.
    pub legs: Option<Vec<Leg>>,
}

/// What is reported of a window of departures beside its connections.
#[derive(Clone, Copy)]
pub struct Window {
    /// The last time to leave at.
    pub until: Time,
    /// The seconds of the way on foot, if there is one.
    pub walk_seconds: Option<u32>,
    /// The time from which on connections aren't reported; none if all are.
    pub next: Option<Time>,
}

/// A question with its answer: the best journeys, by rising rides; or the connections of a window, by departure.
#[derive(Drop)]
pub struct Itinerary<'a> {
    pub command: &'a str,
    pub from: Place,
    pub to: Place,
    /// The time to leave at.
    pub departure: Time,
    /// The window, if connections are reported.
    pub window: Option<Window>,
    pub journeys: Vec<Journey>,
}
