//! Best journeys as points of an answer.

ghost use Rattle.std.specs.Prelude.{◌≤◌, IfOk};
ghost use Rattle.std.specs.List.{All, AllZip};
ghost use Rattle.feed_basis.specs.Points.{IsKnownJourney, TellsLeaving, TellsNumbers, Tells};

use crate::basis::Basis;
use crate::numbered::numbered_stages;
use crate::stages::stages_of;
use answer_lines::Point;
use std::alloc::{AllocError, Global};
use timetable::{LATEST_MOMENT, Numbers};

/// Each of these numbers as a point, without rides and walks. It fails only if memory runs out.
pub fn points_of(alloc: Global, basis: &Basis, front: &[Numbers]) -> Result<Vec<Point>, AllocError>
    ensures { IfOk result (λ points. AllZip (TellsNumbers basis.now) front.now points.items) }
{
    let mut points = Vec::with_capacity(alloc, front.len())?;
    for numbers in front {
        points.push(Point {
            rides: numbers.rides,
            at: basis.day_time(numbers.arrival),
            stages: Vec::new(alloc),
        })?;
    }
    Ok(points)
}

/// A journey that begins at the moment as a point, with its rides and walks if they are wanted. It fails only if memory runs out.
pub fn tell(
    alloc: Global,
    basis: &Basis,
    depart: u32,
    wanted: bool,
    journey: &pattern_query::Point,
) -> Result<Point, AllocError>
    requires early { depart ≤ LATEST_MOMENT }
    requires known { IsKnownJourney basis.now depart journey.now }
    ensures { IfOk result (Tells basis.now depart wanted journey.now) }
{
    let stages = if wanted {
        let numbered = numbered_stages(
            alloc,
            basis.timetable(),
            journey.from(),
            depart,
            journey.legs(),
            journey.to(),
        )?;
        stages_of(alloc, basis, &numbered)?
    } else {
        Vec::new(alloc)
    };
    Ok(Point {
        rides: journey.rides(),
        at: basis.day_time(journey.arrival()),
        stages,
    })
}

/// Each of these journeys as a point, with its rides and walks if they are wanted, by one who leaves at its departure. It fails only if
/// memory runs out.
pub fn told(
    alloc: Global,
    basis: &Basis,
    wanted: bool,
    journeys: &[pattern_query::Point],
) -> Result<Vec<Point>, AllocError>
    requires early { All (λ p. p.departure ≤ LATEST_MOMENT) journeys.now }
    requires known { All (λ p. IsKnownJourney basis.now p.departure p) journeys.now }
    ensures { IfOk result (λ points. AllZip (TellsLeaving basis.now wanted) journeys.now points.items) }
{
    let mut points = Vec::with_capacity(alloc, journeys.len())?;
    for journey in journeys {
        points.push(tell(alloc, basis, journey.departure(), wanted, journey)?)?;
    }
    Ok(points)
}
