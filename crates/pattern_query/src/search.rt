//! The search of a source's patterns for the best journeys to a stop.

ghost use Rattle.std.specs.Prelude.{◌≡◌, ℕ, ◌+◌, ◌<◌, ◌≤◌, ◌++◌, ◌∷◌, [], length, IfSome, IfNone};
ghost use Rattle.timetable.specs.Table.{IsTable};
ghost use Rattle.timetable.specs.Journeys.{arrives, pattern};
ghost use Rattle.packed_patterns.specs.Patterns.{paths_of};
ghost use Rattle.pattern_query.specs.Way.{Stands, Earliest, Boards, Exactly, EmptyOrIn, HasFront, hop, is_some, leaving};
ghost use Rattle.pattern_query.specs.BestSoFar.{Searched, AreThere};

use crate::answer::{Legs, Point};
use crate::best_so_far::{is_there_by, offer};
use crate::feet::foot;
use direct_connections::{Network, Ride};
use packed_patterns::{Ending, rides_of};
use timetable::{LATEST_MOMENT, StopId};

/// What is sought, and where: journeys from a source to a stop.
#[derive(Clone, Copy)]
pub(crate) struct Search<'a> {
    pub(crate) network: &'a Network,
    pub(crate) source: StopId,
    pub(crate) to: StopId,
    pub(crate) depart: u32,
}

/// The seconds between being at a stop and boarding at another, before any ride or after one.
pub(crate) fn hop(network: &Network, ridden: bool, from: StopId, to: StopId) -> Option<u32>
    ensures value { result ≡ hop network.now ridden from to }
    ensures short { IfSome result (λ seconds. seconds ≤ 86_400) }
    ensures valid { IsTable network.now }
{
    if ridden && from == to {
        return network.timetable().change(from);
    }
    foot(network, from, to)
}

impl Search<'_> {
    // The earliest ride along a step after the legs, on a path of `rides` rides. None if there is none, or if a journey that was found
    // arrives no later than one could board, or than the ride does, with no more rides than the path. Then no journey along the path is
    // better.
    fn ride(
        &self,
        step: (StopId, StopId),
        at: StopId,
        since: u32,
        legs: &Legs,
        rides: usize,
        points: &[Option<Point>],
    ) -> Option<Ride>
        requires way { Earliest self.now.network.now self.now.source self.now.depart legs.now.items at since }
        requires early { since ≤ LATEST_MOMENT }
        requires room { rides < length points.now }
        ensures boards { IfSome result (λ ride. Boards self.now.network.now (is_some legs.now.items) at since step.0 step.1 ride.leg) }
        ensures arrival { IfSome result (λ ride. ride.arrival ≡ arrives self.now.network.now ride.leg) }
        ensures valid { IsTable self.now.network.now }
        ensures none { IfNone result (AreThere self.now.network.now self.now.source self.now.to self.now.depart
            (HasFront rides (pattern self.now.network.now legs.now.items ++ step ∷ [])) points.now) }
    {
        let (board, alight) = step;
        let ready = since + hop(self.network, !legs.is_empty(), at, board)?;
        if is_there_by(points, rides + 1, ready) {
            return None;
        }
        let ride = self.network.earliest_ride(board, alight, ready)?;
        if is_there_by(points, rides + 1, ride.arrival) {
            return None;
        }
        Some(ride)
    }

    // When one leaves for the legs: so that the walk to the first ends just in time. Without legs one leaves when asked.
    fn departure_of(&self, legs: &Legs) -> u32
        requires { (p a : ℕ) × Stands self.now.network.now self.now.source self.now.depart legs.now.items p a }
        ensures { result ≡ leaving self.now.network.now self.now.source self.now.depart legs.now.items }
    {
        let table = self.network.timetable();
        let Some(leg) = legs.first() else {
            return self.depart;
        };
        let board = table.boarding_stop(*leg);
        let walk = foot(self.network, self.source, board).unwrap_or(0);
        table.departure_of(*leg) - walk
    }

    // Offers the journey of the legs and the walk from where they lead.
    fn arrive(&self, at: StopId, since: u32, legs: &Legs, points: &mut [Option<Point>])
        requires way { Earliest self.now.network.now self.now.source self.now.depart legs.now.items at since }
        requires early { since ≤ LATEST_MOMENT }
        requires room { length legs.now.items < length points.old }
        ensures { Searched self.now.network.now self.now.source self.now.to self.now.depart
            (Exactly (pattern self.now.network.now legs.now.items)) points.old points.new }
    {
        if let Some(seconds) = foot(self.network, at, self.to) {
            let departure = self.departure_of(legs);
            let point = Point::new(self.source, self.to, departure, since + seconds, legs);
            offer(points, point);
        }
    }

    /// Offers the earliest journey along a path, or on foot along an empty one.
    pub(crate) fn follow(&self, path: &[(StopId, StopId)], points: &mut [Option<Point>])
        requires early { self.now.depart ≤ LATEST_MOMENT }
        requires short { length path.now ≤ 8 }
        requires nine { length points.old ≡ 9 }
        ensures { Searched self.now.network.now self.now.source self.now.to self.now.depart (Exactly path.now) points.old points.new }
    {
        let mut legs = Legs::new();
        let mut at = self.source;
        let mut since = self.depart;
        for step in path {
            let Some(ride) = self.ride(*step, at, since, &legs, path.len(), points) else {
                return;
            };
            legs.push(ride.leg);
            at = step.1;
            since = ride.arrival;
        }
        self.arrive(at, since, &legs, points);
    }

    /// Puts in the journeys from the source to the stop on foot, and along the paths of the patterns.
    pub(crate) fn run(&self, ending: &Ending<'_>, points: &mut [Option<Point>])
        requires early { self.now.depart ≤ LATEST_MOMENT }
        requires nine { length points.old ≡ 9 }
        ensures { Searched self.now.network.now self.now.source self.now.to self.now.depart
            (EmptyOrIn (paths_of ending.now.beginnings.now ending.now.patterns.now)) points.old points.new }
    {
        self.follow(&[], points);
        for pattern in ending.patterns {
            let path = rides_of(ending.beginnings, pattern.last);
            self.follow(path.as_slice(), points);
        }
    }
}
