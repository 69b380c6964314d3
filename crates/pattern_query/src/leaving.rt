//! The second pass of a search: of the journeys with the same numbers the one that leaves last, and of those one that walks least.

ghost use Rattle.std.specs.Prelude.{◌≡◌, ℕ, ◌+◌, ◌<◌, ◌≤◌, ◌↔◌, length, Some, IfSome, IfNone, IsTrue};
ghost use Rattle.timetable.specs.Table.{IsTable};
ghost use Rattle.pattern_query.specs.Answer.{PointData};
ghost use Rattle.packed_patterns.specs.Patterns.{paths_of};
ghost use Rattle.pattern_query.specs.Way.{Exactly, EmptyOrIn};
ghost use Rattle.pattern_query.specs.BestSoFar.{AreSlots, AreThere, IsAlong, IsKept};
ghost use Rattle.pattern_query.specs.Leaving.{walked, on_foot, CanTake, IsLastMoment, IsBack, IsPreferred, IsFound, IsBetterAlong, AreJourneys, LeaveLast};

use crate::answer::Point;
use crate::best_so_far::{is_there_by, no_points};
use crate::feet::{foot, walk_along, walk_of};
use crate::search::{Search, hop};
use packed_patterns::{Ending, rides_of};
use timetable::{LATEST_MOMENT, StopId};

impl Search<'_> {
    // The same search at another moment.
    fn from_moment(&self, depart: u32) -> Search<'_>
        ensures network { result.network.now ≡ self.now.network.now }
        ensures source { result.source ≡ self.now.source }
        ensures to { result.to ≡ self.now.to }
        ensures depart { result.depart ≡ depart }
    {
        Search {
            network: self.network,
            source: self.source,
            to: self.to,
            depart,
        }
    }

    // The moment `seconds` before `moment`; none if they aren't known, or if it's before that of the search.
    fn back(&self, moment: u32, seconds: Option<u32>) -> Option<u32>
        ensures some { IfSome result (IsBack seconds moment) }
        ensures since { IfSome result (λ e. self.now.depart ≤ e) }
        ensures none { IfNone result ((e w : ℕ) → seconds ≡ Some w → e + w ≤ moment → e < self.now.depart) }
    {
        let before = moment.checked_sub(seconds?)?;
        if before < self.depart {
            return None;
        }
        Some(before)
    }

    // The last moment at which one can be at a stop, before any ride or after one, to take the path and be there by then. None if it's
    // before that of the search.
    fn last_moment(
        &self,
        ridden: bool,
        at: StopId,
        path: &[(StopId, StopId)],
        by: u32,
    ) -> Option<u32>
        ensures last { IfSome result (IsLastMoment (CanTake self.now.network.now ridden at path.now self.now.to by)) }
        ensures since { IfSome result (λ e. self.now.depart ≤ e) }
        ensures none { IfNone result ((e : ℕ) → CanTake self.now.network.now ridden at path.now self.now.to by e → e < self.now.depart) }
        ensures valid { IsTable self.now.network.now }
    {
        let Some((step, rest)) = path.split_first() else {
            return self.back(by, foot(self.network, at, self.to));
        };
        let alighted = self.last_moment(true, step.1, rest, by)?;
        let ride = self.network.latest_ride(step.0, step.1, alighted)?;
        self.back(ride.departure, hop(self.network, ridden, at, step.0))
    }

    // Whether one who leaves for the path at the moment leaves with the point, and walks no less.
    fn walks_no_less(&self, path: &[(StopId, StopId)], moment: u32, point: &Point) -> bool
        requires { length path.now ≤ 8 }
        ensures { IsTrue result ↔ ((moment ≡ point.now.departure)
            × (on_foot self.now.network.now point.now ≤ walked self.now.network.now self.now.source path.now self.now.to)) }
    {
        moment == point.departure()
            && walk_of(self.network, point) <= walk_along(self.network, self.source, path, self.to)
    }

    // The earliest journey along this path only, if there is one.
    fn alone(&self, path: &[(StopId, StopId)]) -> Option<Point>
        requires early { self.now.depart ≤ LATEST_MOMENT }
        requires short { length path.now ≤ 8 }
        ensures { IsFound self.now.network.now self.now.source self.now.to self.now.depart path.now result }
    {
        let mut found = no_points();
        self.follow(path, &mut found);
        found[path.len()].take()
    }

    // The journey along the path that is preferred to the point and arrives no later, if there is one.
    fn better_along(&self, path: &[(StopId, StopId)], point: &Point) -> Option<Point>
        requires some { 0 < length path.now }
        requires short { length path.now ≤ 8 }
        requires after { self.now.depart ≤ point.now.departure }
        ensures better { IfSome result (IsBetterAlong self.now.network.now self.now.source self.now.to self.now.depart path.now point.now) }
        ensures none { IfNone result ((o : PointData)
            → IsAlong self.now.network.now self.now.source self.now.to self.now.depart (Exactly path.now) o
            → o.arrival ≤ point.now.arrival → IsPreferred self.now.network.now point.now o) }
    {
        let moment = self
            .from_moment(point.departure())
            .last_moment(false, self.source, path, point.arrival())?;
        if self.walks_no_less(path, moment, point) {
            return None;
        }
        self.from_moment(moment).alone(path)
    }

    // The journey along the path that is preferred to the point of as many rides, if there is one. Those on foot all leave at once, and a
    // point that isn't kept is left as it is.
    fn preferred(&self, path: &[(StopId, StopId)], points: &[Option<Point>]) -> Option<Point>
        requires short { length path.now ≤ 8 }
        requires slots { AreSlots points.now }
        requires each { AreJourneys self.now.network.now self.now.depart points.now }
        ensures better { IfSome result (λ q. (p : PointData) × IsKept points.now (length path.now) p
            × IsBetterAlong self.now.network.now self.now.source self.now.to self.now.depart path.now p q) }
        ensures none { IfNone result ((p o : PointData) → IsKept points.now (length path.now) p
            → IsAlong self.now.network.now self.now.source self.now.to self.now.depart (Exactly path.now) o
            → o.arrival ≡ p.arrival → IsPreferred self.now.network.now p o) }
    {
        let rides = path.len();
        if rides == 0 {
            return None;
        }
        let point = points[rides].as_ref()?;
        if is_there_by(points, rides, point.arrival()) {
            return None;
        }
        self.better_along(path, point)
    }

    // Puts the journey along the path that leaves last in place of the point of as many rides, if it's preferred.
    fn leave_along(&self, path: &[(StopId, StopId)], points: &mut [Option<Point>])
        requires short { length path.now ≤ 8 }
        requires slots { AreSlots points.old }
        requires each { AreJourneys self.now.network.now self.now.depart points.old }
        requires least { AreThere self.now.network.now self.now.source self.now.to self.now.depart (Exactly path.now) points.old }
        ensures { LeaveLast self.now.network.now
            (IsAlong self.now.network.now self.now.source self.now.to self.now.depart (Exactly path.now)) points.old points.new }
    {
        if let Some(better) = self.preferred(path, points) {
            points[path.len()] = Some(better);
        }
    }

    /// Puts in place of the points the journeys along the paths of the patterns that are preferred. All journeys along these were searched.
    pub(crate) fn leave_last(&self, ending: &Ending<'_>, points: &mut [Option<Point>])
        requires slots { AreSlots points.old }
        requires each { AreJourneys self.now.network.now self.now.depart points.old }
        requires least { AreThere self.now.network.now self.now.source self.now.to self.now.depart
            (EmptyOrIn (paths_of ending.now.beginnings.now ending.now.patterns.now)) points.old }
        ensures { LeaveLast self.now.network.now (IsAlong self.now.network.now self.now.source self.now.to self.now.depart
            (EmptyOrIn (paths_of ending.now.beginnings.now ending.now.patterns.now))) points.old points.new }
    {
        for pattern in ending.patterns {
            let path = rides_of(ending.beginnings, pattern.last);
            self.leave_along(path.as_slice(), points);
        }
    }
}
