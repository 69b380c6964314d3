//! From an answer to what is reported of it.

use crate::repeats::frequency_of;
use crate::stages::{arrival_of, departure_of, ends_of, kind_of, trip_of};
use crate::through::stops_between;
use crate::wanted::names_for;
use answer_lines::{Answer, DayTime, Point, Stage};
use connection_lines::{Connection, Connections};
use feed_basis::Basis;
use feed_names::{NameSheets, Names, Place, Trip};
use itinerary_texts::{Frequency, Itinerary, Journey, Leg, Stay, Time, Window, ZoneClock};
use std::alloc::{AllocError, Global};

/// What was asked.
#[derive(Clone, Copy)]
pub struct Asked<'a> {
    /// The command that asked, as `scan`.
    pub command: &'a str,
    /// The ids of the places to leave from and to go to.
    pub from: &'a str,
    pub to: &'a str,
    /// The time to leave at.
    pub departs: DayTime,
    /// The last time to leave at, if connections up to it are asked for.
    pub until: Option<DayTime>,
    /// Whether the stops that a ride calls at in between are reported, as on a map.
    pub through: bool,
}

/// What was found: an answer, or the connections of a window.
#[derive(Clone, Copy)]
pub enum Found<'f> {
    Answer(&'f Answer),
    Connections(&'f Connections),
}

// What itineraries are made with.
#[derive(Drop)]
struct Teller<'a, C> {
    basis: &'a Basis,
    clock: &'a C,
    names: &'a Names,
    // Whether rides have the stops between, at which they call.
    through: bool,
}

impl<C: ZoneClock> Teller<'_, C> {
    // A time by the clock.
    fn time(&self, at: DayTime) -> Time {
        self.clock.time(at)
    }

    // The seconds from one time to a later one.
    fn seconds(&self, departs: DayTime, arrives: DayTime) -> Option<u32> {
        let departs = self.basis.told(departs.date, departs.seconds)?;
        let arrives = self.basis.told(arrives.date, arrives.seconds)?;
        arrives.checked_sub(departs)
    }

    // The stops that a ride calls at in between, if they are reported.
    fn through(&self, alloc: Global, stage: &Stage) -> Result<Vec<Place>, AllocError> {
        if !self.through {
            return Ok(Vec::new(alloc));
        }
        self.names
            .places(alloc, &stops_between(alloc, self.basis, stage)?)
    }

    // The trip of a ride.
    fn trip(&self, alloc: Global, stage: &Stage) -> Result<Option<Trip>, AllocError> {
        match trip_of(stage) {
            Some(trip) => Ok(Some(self.names.trip(alloc, trip)?)),
            None => Ok(None),
        }
    }

    // How the trip of a ride repeats, if it does.
    fn frequency(&self, stage: &Stage) -> Option<Frequency> {
        match stage {
            Stage::Ride { leg, .. } => frequency_of(self.basis, *leg),
            Stage::Walk { .. } => None,
        }
    }

    // A place and a time there.
    fn stay(&self, alloc: Global, id: &str, at: DayTime) -> Result<Stay, AllocError> {
        Ok(Stay {
            place: self.names.place(alloc, id)?,
            time: self.time(at),
        })
    }

    // A ride or a walk.
    fn leg(&self, alloc: Global, stage: &Stage) -> Result<Leg, AllocError> {
        let (from, to) = ends_of(stage);
        let (departs, arrives) = (departure_of(stage), arrival_of(stage));
        Ok(Leg {
            kind: kind_of(stage),
            frequency: self.frequency(stage),
            seconds: self.seconds(departs, arrives),
            through: self.through(alloc, stage)?,
            from: self.stay(alloc, from, departs)?,
            to: self.stay(alloc, to, arrives)?,
            trip: self.trip(alloc, stage)?,
        })
    }

    // Rides and walks.
    fn legs(&self, alloc: Global, stages: &[Stage]) -> Result<Vec<Leg>, AllocError> {
        let mut legs = Vec::with_capacity(alloc, stages.len())?;
        for stage in stages {
            legs.push(self.leg(alloc, stage)?)?;
        }
        Ok(legs)
    }

    // A journey. One who stays where one is arrives at once.
    fn journey(&self, alloc: Global, point: &Point) -> Result<Journey, AllocError> {
        let departs = match point.stages.first() {
            Some(stage) => departure_of(stage),
            None => point.at,
        };
        Ok(Journey {
            rides: point.rides,
            departure: Some(self.time(departs)),
            arrival: self.time(point.at),
            seconds: self.seconds(departs, point.at),
            legs: Some(self.legs(alloc, &point.stages)?),
        })
    }

    // A journey by a single ride, of which only the arrival is known.
    fn arrival(&self, at: DayTime) -> Journey {
        Journey {
            rides: 1,
            departure: None,
            arrival: self.time(at),
            seconds: None,
            legs: None,
        }
    }

    // Puts in journeys.
    fn put_points(
        &self,
        alloc: Global,
        journeys: &mut Vec<Journey>,
        points: &[Point],
    ) -> Result<(), AllocError> {
        for point in points {
            journeys.push(self.journey(alloc, point)?)?;
        }
        Ok(())
    }

    // Puts in the journeys of connections.
    fn put_connections(
        &self,
        alloc: Global,
        journeys: &mut Vec<Journey>,
        connections: &[Connection],
    ) -> Result<(), AllocError> {
        for connection in connections {
            journeys.push(self.journey(alloc, &connection.journey)?)?;
        }
        Ok(())
    }

    // Puts in the journeys of what was found.
    fn put_journeys(
        &self,
        alloc: Global,
        journeys: &mut Vec<Journey>,
        found: &Found<'_>,
    ) -> Result<(), AllocError> {
        match found {
            Found::Answer(Answer::NoRide) => Ok(()),
            Found::Answer(Answer::Arrive(at)) => {
                journeys.push(self.arrival(*at))?;
                Ok(())
            }
            Found::Answer(Answer::Points(points)) => self.put_points(alloc, journeys, points),
            Found::Connections(connections) => {
                self.put_connections(alloc, journeys, &connections.list)
            }
        }
    }

    // The journeys of what was found.
    fn journeys(&self, alloc: Global, found: &Found<'_>) -> Result<Vec<Journey>, AllocError> {
        let mut journeys = Vec::new(alloc);
        self.put_journeys(alloc, &mut journeys, found)?;
        Ok(journeys)
    }

    // What is reported of the window beside its connections. If no last time to leave at is named, it is that of the last covered moment.
    fn window(&self, until: Option<DayTime>, connections: &Connections) -> Window {
        let last = match until {
            Some(until) => until,
            None => self.basis.day_time(self.basis.timetable().horizon()),
        };
        Window {
            until: self.time(last),
            walk_seconds: connections.walk,
            next: match connections.next {
                Some(next) => Some(self.time(next)),
                None => None,
            },
        }
    }

    // The window, if connections were found.
    fn window_of(&self, until: Option<DayTime>, found: &Found<'_>) -> Option<Window> {
        match found {
            Found::Answer(_) => None,
            Found::Connections(connections) => Some(self.window(until, connections)),
        }
    }

    // What was found for what was asked.
    fn itinerary<'q>(
        &self,
        alloc: Global,
        asked: &Asked<'q>,
        found: &Found<'_>,
    ) -> Result<Itinerary<'q>, AllocError> {
        Ok(Itinerary {
            command: asked.command,
            departure: self.time(asked.departs),
            window: self.window_of(asked.until, found),
            journeys: self.journeys(alloc, found)?,
            from: self.names.place(alloc, asked.from)?,
            to: self.names.place(alloc, asked.to)?,
        })
    }
}

/// The itinerary of what was found for what was asked over the basis. What was found has its rides and walks. Times are by the clock, and
/// names are those that the sheets have. It fails only if memory runs out.
pub fn itinerary_of<'a, C: ZoneClock>(
    alloc: Global,
    basis: &Basis,
    clock: &C,
    sheets: &NameSheets,
    asked: &Asked<'a>,
    found: &Found<'_>,
) -> Result<Itinerary<'a>, AllocError> {
    let names = names_for(alloc, basis, sheets, asked, found)?;
    itinerary_by(alloc, basis, clock, &names, asked, found)
}

/// The same by names that were looked up before.
pub fn itinerary_by<'a, C: ZoneClock>(
    alloc: Global,
    basis: &Basis,
    clock: &C,
    names: &Names,
    asked: &Asked<'a>,
    found: &Found<'_>,
) -> Result<Itinerary<'a>, AllocError> {
    let teller = Teller {
        basis,
        clock,
        names,
        through: asked.through,
    };
    teller.itinerary(alloc, asked, found)
}

/// Stops with the names that the sheets have. It fails only if memory runs out.
pub fn places_of(
    alloc: Global,
    sheets: &NameSheets,
    ids: &[&str],
) -> Result<Vec<Place>, AllocError> {
    let names = Names::of(alloc, sheets, ids, &[])?;
    names.places(alloc, ids)
}
