//! Journeys on a map: GeoJSON (RFC 7946).

use crate::itinerary::{Itinerary, Journey, Leg};
use crate::plain::{write_iso, write_kind};
use feed_names::{Place, Trip};
use json_writer::JsonWriter;
use std::alloc::{AllocError, Global};

/// A position: its longitude and its latitude, in degrees (RFC 7946, section 3.1.1).
pub type Position = (f64, f64);

/// The position of a place, if the feed has one.
pub fn position_of(place: &Place) -> Option<Position> {
    Some((place.longitude?, place.latitude?))
}

// The positions of a ride's or a walk's stops, in their order.
fn positions_of(alloc: Global, leg: &Leg) -> Result<Vec<Position>, AllocError> {
    let mut positions = Vec::new(alloc);
    if let Some(position) = position_of(&leg.from.place) {
        positions.push(position)?;
    }
    for place in &leg.through {
        if let Some(position) = position_of(place) {
            positions.push(position)?;
        }
    }
    if let Some(position) = position_of(&leg.to.place) {
        positions.push(position)?;
    }
    Ok(positions)
}

/// Begins a collection (RFC 7946, section 3.3), to which features come.
pub fn begin_features(out: &mut JsonWriter) {
    out.begin_object();
    out.member("type", &"FeatureCollection");
    out.name("features");
    out.begin_list();
}

/// Ends the collection.
pub fn end_features(out: &mut JsonWriter) {
    out.end_list();
    out.end_object();
}

/// Begins a feature (RFC 7946, section 3.2), whose geometry comes next.
pub fn begin_feature(out: &mut JsonWriter) {
    out.begin_object();
    out.member("type", &"Feature");
    out.name("geometry");
}

// Writes the shape of a ride or a walk: none if fewer than two stops have a position.
fn write_shape(out: &mut JsonWriter, positions: &[Position]) {
    if positions.len() < 2 {
        out.null();
        return;
    }
    out.begin_object();
    out.member("type", &"LineString");
    out.member("coordinates", &positions);
    out.end_object();
}

// Writes the trip of a ride, with nothing in its place for a walk.
fn write_trip(out: &mut JsonWriter, trip: Option<&Trip>) {
    let route = trip.and_then(|trip| trip.route.as_ref());
    out.member("trip", &trip.map(|trip| &trip.id));
    out.member("route", &route.map(|route| &route.id));
    out.member("headsign", &trip.and_then(|trip| trip.headsign.as_ref()));
}

// Writes where and when a ride or a walk begins and ends.
fn write_ends(out: &mut JsonWriter, leg: &Leg) {
    out.member("from", &leg.from.place.id);
    out.member("from_name", &leg.from.place.name);
    write_iso(out, "departure", &leg.from.time);
    out.member("to", &leg.to.place.id);
    out.member("to_name", &leg.to.place.name);
    write_iso(out, "arrival", &leg.to.time);
}

// Writes what is reported of a ride or a walk on a map. Its journey has a number from 1, and stops are left out if the feed has no position
// of theirs.
fn write_properties(out: &mut JsonWriter, journey: usize, leg: &Leg, left_out: usize) {
    out.begin_object();
    out.member("journey", &journey);
    write_kind(out, leg.kind);
    write_trip(out, leg.trip.as_ref());
    write_ends(out, leg);
    out.member("stops_without_position", &left_out);
    out.end_object();
}

// Writes a ride or a walk of a journey, whose stops have these positions.
fn write_feature(out: &mut JsonWriter, journey: usize, leg: &Leg, positions: &[Position]) {
    let stops = leg.through.len().saturating_add(2);
    begin_feature(out);
    write_shape(out, positions);
    out.name("properties");
    write_properties(out, journey, leg, stops.saturating_sub(positions.len()));
    out.end_object();
}

// Writes the rides and walks of a journey.
fn write_journey(
    alloc: Global,
    out: &mut JsonWriter,
    number: usize,
    journey: &Journey,
) -> Result<(), AllocError> {
    if let Some(legs) = &journey.legs {
        for leg in legs {
            let positions = positions_of(alloc, leg)?;
            write_feature(out, number, leg, &positions);
        }
    }
    Ok(())
}

// Writes the rides and walks of all journeys.
fn write_journeys(
    alloc: Global,
    out: &mut JsonWriter,
    journeys: &[Journey],
) -> Result<(), AllocError> {
    begin_features(out);
    for (index, journey) in journeys.iter().enumerate() {
        write_journey(alloc, out, index.saturating_add(1), journey)?;
    }
    end_features(out);
    Ok(())
}

/// The rides and walks of the journeys as GeoJSON, on one line, without a line's end. There is a feature for each, in the order of the
/// journeys, through the stops that a ride calls at. It fails only if memory runs out.
pub fn geojson(alloc: Global, itinerary: &Itinerary<'_>) -> Result<String, AllocError> {
    let mut out = JsonWriter::new(alloc);
    write_journeys(alloc, &mut out, &itinerary.journeys)?;
    out.into_text()
}
