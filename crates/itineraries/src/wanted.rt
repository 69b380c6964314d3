//! The names that are wanted to report what was found.

use crate::stages::{ends_of, trip_of};
use crate::telling::{Asked, Found};
use crate::through::stops_between;
use answer_lines::{Answer, Point, Stage};
use feed_basis::Basis;
use feed_names::{NameSheets, Names};
use std::alloc::{AllocError, Global};

// The stops and trips whose names are wanted.
#[derive(Drop)]
struct Wanted<'a> {
    stops: Vec<&'a str>,
    trips: Vec<&'a str>,
}

impl<'a> Wanted<'a> {
    // Puts in those of a ride or a walk.
    fn put(&mut self, stage: &'a Stage) -> Result<(), AllocError> {
        let (from, to) = ends_of(stage);
        self.stops.push(from)?;
        self.stops.push(to)?;
        if let Some(trip) = trip_of(stage) {
            self.trips.push(trip)?;
        }
        Ok(())
    }

    // Puts in the stops that a ride calls at in between.
    fn put_through(
        &mut self,
        alloc: Global,
        basis: &'a Basis,
        stage: &Stage,
    ) -> Result<(), AllocError> {
        self.stops
            .extend_from_slice(&stops_between(alloc, basis, stage)?)
    }

    // Puts in those of a journey.
    fn put_point(
        &mut self,
        alloc: Global,
        basis: &'a Basis,
        through: bool,
        point: &'a Point,
    ) -> Result<(), AllocError> {
        for stage in &point.stages {
            self.put(stage)?;
            if through {
                self.put_through(alloc, basis, stage)?;
            }
        }
        Ok(())
    }

    // Puts in those of what was found.
    fn put_found(
        &mut self,
        alloc: Global,
        basis: &'a Basis,
        through: bool,
        found: &'a Found<'_>,
    ) -> Result<(), AllocError> {
        match found {
            Found::Answer(Answer::Points(points)) => {
                for point in points {
                    self.put_point(alloc, basis, through, point)?;
                }
            }
            Found::Answer(_) => {}
            Found::Connections(connections) => {
                for connection in &connections.list {
                    self.put_point(alloc, basis, through, &connection.journey)?;
                }
            }
        }
        Ok(())
    }

    // Puts in those of what was asked, and of what was found for it.
    fn put_all(
        &mut self,
        alloc: Global,
        basis: &'a Basis,
        asked: &'a Asked<'_>,
        found: &'a Found<'_>,
    ) -> Result<(), AllocError> {
        self.stops.push(asked.from)?;
        self.stops.push(asked.to)?;
        self.put_found(alloc, basis, asked.through, found)
    }
}

/// The names that are wanted to report what was found for what was asked. It fails only if memory runs out.
pub(crate) fn names_for<'a>(
    alloc: Global,
    basis: &'a Basis,
    sheets: &NameSheets,
    asked: &'a Asked<'_>,
    found: &'a Found<'_>,
) -> Result<Names, AllocError> {
    let mut wanted = Wanted {
        stops: Vec::new(alloc),
        trips: Vec::new(alloc),
    };
    wanted.put_all(alloc, basis, asked, found)?;
    Names::of(alloc, sheets, &wanted.stops, &wanted.trips)
}
