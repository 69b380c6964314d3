//! Names, by ids.

use crate::named::{Place, Route, Trip};
use crate::tables::{ids_of, route_table, table_of};
use crate::texts::{RouteName, StopName, TripName};
use gtfs_text::Sheet;
use std::alloc::{AllocError, Global};
use std::collections::BTreeMap;

/// The sheets of a feed that names are read from, if they are there.
pub struct NameSheets {
    pub stops: Option<Sheet>,
    pub trips: Option<Sheet>,
    pub routes: Option<Sheet>,
}

// A drop by hand is one call at each exit of a function that holds the value. A derived one is many (docs/CHECKING.md).
impl Drop for NameSheets {
    fn drop(self) {
        let NameSheets {
            stops: _,
            trips: _,
            routes: _,
        } = self;
    }
}

// A copy of a text, if there is one.
fn some_text(alloc: Global, text: &str) -> Result<Option<String>, AllocError> {
    if text.is_empty() {
        return Ok(None);
    }
    Ok(Some(String::from_str(alloc, text)?))
}

// The number of degrees that a text spells, if it is from -most to most.
fn degrees(text: &str, most: f64) -> Option<f64> {
    let number = text.parse::<f64>().ok()?;
    if -most <= number && number <= most {
        Some(number)
    } else {
        None
    }
}

// A stop or a station that has a row.
fn named_place(alloc: Global, id: &str, stop: &StopName) -> Result<Place, AllocError> {
    Ok(Place {
        id: String::from_str(alloc, id)?,
        name: some_text(alloc, stop.name.as_str())?,
        platform: some_text(alloc, stop.platform.as_str())?,
        latitude: degrees(stop.latitude.as_str(), 90.0),
        longitude: degrees(stop.longitude.as_str(), 180.0),
    })
}

// A route that has a row.
fn named_route(alloc: Global, id: &str, route: &RouteName) -> Result<Route, AllocError> {
    Ok(Route {
        id: String::from_str(alloc, id)?,
        short_name: some_text(alloc, route.short_name.as_str())?,
        long_name: some_text(alloc, route.long_name.as_str())?,
    })
}

/// Names of stops, trips and routes, by their ids.
pub struct Names {
    stops: BTreeMap<String, StopName>,
    trips: BTreeMap<String, TripName>,
    routes: BTreeMap<String, RouteName>,
}

// A drop by hand is one call at each exit of a function that holds the value. A derived one is many (docs/CHECKING.md).
impl Drop for Names {
    fn drop(self) {
        let Names {
            stops: _,
            trips: _,
            routes: _,
        } = self;
    }
}

impl Names {
    /// All names that the sheets have. It fails only if memory runs out.
    pub fn all(alloc: Global, sheets: &NameSheets) -> Result<Names, AllocError> {
        let stops = ids_of::<StopName>(alloc, &sheets.stops)?;
        let trips = ids_of::<TripName>(alloc, &sheets.trips)?;
        Names::of(alloc, sheets, &stops, &trips)
    }

    /// The names of these stops and trips, and of the trips' routes. It fails only if memory runs out.
    pub fn of(
        alloc: Global,
        sheets: &NameSheets,
        stops: &[&str],
        trips: &[&str],
    ) -> Result<Names, AllocError> {
        let stops = table_of(alloc, &sheets.stops, stops)?;
        let trips = table_of(alloc, &sheets.trips, trips)?;
        let routes = route_table(alloc, &sheets.routes, &trips)?;
        Ok(Names {
            stops,
            trips,
            routes,
        })
    }

    /// A stop or a station with its names.
    pub fn place(&self, alloc: Global, id: &str) -> Result<Place, AllocError> {
        match self.stops.get(id) {
            Some(stop) => named_place(alloc, id, stop),
            None => Ok(Place {
                id: String::from_str(alloc, id)?,
                name: None,
                platform: None,
                latitude: None,
                longitude: None,
            }),
        }
    }

    /// Stops and stations with their names.
    pub fn places(&self, alloc: Global, ids: &[&str]) -> Result<Vec<Place>, AllocError> {
        let mut places = Vec::with_capacity(alloc, ids.len())?;
        for id in ids {
            places.push(self.place(alloc, id)?)?;
        }
        Ok(places)
    }

    // A route with its names; none if the trip names none.
    fn route(&self, alloc: Global, id: &str) -> Result<Option<Route>, AllocError> {
        if id.is_empty() {
            return Ok(None);
        }
        let route = match self.routes.get(id) {
            Some(route) => named_route(alloc, id, route)?,
            None => Route {
                id: String::from_str(alloc, id)?,
                short_name: None,
                long_name: None,
            },
        };
        Ok(Some(route))
    }

    // A trip that has a row.
    fn named_trip(&self, alloc: Global, id: &str, trip: &TripName) -> Result<Trip, AllocError> {
        Ok(Trip {
            id: String::from_str(alloc, id)?,
            headsign: some_text(alloc, trip.headsign.as_str())?,
            short_name: some_text(alloc, trip.short_name.as_str())?,
            route: self.route(alloc, trip.route.as_str())?,
        })
    }

    /// A trip with its names and its route.
    pub fn trip(&self, alloc: Global, id: &str) -> Result<Trip, AllocError> {
        match self.trips.get(id) {
            Some(trip) => self.named_trip(alloc, id, trip),
            None => Ok(Trip {
                id: String::from_str(alloc, id)?,
                headsign: None,
                short_name: None,
                route: None,
            }),
        }
    }
}
