//! Answers as JSON.

use crate::itinerary::{Frequency, Itinerary, Journey, Kind, Leg, Stay, Window};
use crate::time::Time;
use feed_names::{Place, Route, Trip};
use json_writer::JsonWriter;
use std::alloc::{AllocError, Global};

/// Writes how one gets on.
pub(crate) fn write_kind(out: &mut JsonWriter, kind: Kind) {
    let kind = match kind {
        Kind::Ride => "ride",
        Kind::Walk => "walk",
    };
    out.member("kind", &kind);
}

/// Writes the members of a stop or a station.
pub fn write_place_members(out: &mut JsonWriter, place: &Place) {
    out.member("id", &place.id);
    out.member("name", &place.name);
    out.member("platform", &place.platform);
    out.member("latitude", &place.latitude);
    out.member("longitude", &place.longitude);
}

/// Writes a stop or a station.
pub fn write_place(out: &mut JsonWriter, place: &Place) {
    out.begin_object();
    write_place_members(out, place);
    out.end_object();
}

/// Writes a time of the zone's clock under a name, or null past the years that jiff knows.
pub fn write_iso(out: &mut JsonWriter, name: &str, time: &Time) {
    match time.iso() {
        Some(iso) => out.plain_member(name, iso.as_str()),
        None => out.member(name, &()),
    }
}

/// Writes a time.
pub fn write_time(out: &mut JsonWriter, time: &Time) {
    let told = time.told();
    let (date, hours) = told.as_str().split_once(' ').unwrap_or((told.as_str(), ""));
    out.begin_object();
    out.plain_member("date", date);
    out.plain_member("time", hours);
    write_iso(out, "iso", time);
    out.end_object();
}

// Writes a route, if there is one.
fn write_route(out: &mut JsonWriter, route: &Option<Route>) {
    let Some(route) = route else {
        out.null();
        return;
    };
    out.begin_object();
    out.member("id", &route.id);
    out.member("short_name", &route.short_name);
    out.member("long_name", &route.long_name);
    out.end_object();
}

// Writes a trip, if there is one.
fn write_trip(out: &mut JsonWriter, trip: &Option<Trip>) {
    let Some(trip) = trip else {
        out.null();
        return;
    };
    out.begin_object();
    out.member("id", &trip.id);
    out.member("headsign", &trip.headsign);
    out.member("short_name", &trip.short_name);
    out.name("route");
    write_route(out, &trip.route);
    out.end_object();
}

// Writes how a trip repeats; nothing if it doesn't.
fn write_frequency(out: &mut JsonWriter, frequency: &Option<Frequency>) {
    if let Some(frequency) = frequency {
        out.name("frequency");
        out.begin_object();
        out.member("headway_secs", &frequency.headway_secs);
        out.member("exact_times", &frequency.exact_times);
        out.end_object();
    }
}

// Writes a place and the time there, under these names.
fn write_stay(out: &mut JsonWriter, place: &str, time: &str, stay: &Stay) {
    out.name(place);
    write_place(out, &stay.place);
    out.name(time);
    write_time(out, &stay.time);
}

// Writes a ride or a walk.
fn write_leg(out: &mut JsonWriter, leg: &Leg) {
    out.begin_object();
    write_kind(out, leg.kind);
    out.name("trip");
    write_trip(out, &leg.trip);
    write_frequency(out, &leg.frequency);
    write_stay(out, "from", "departure", &leg.from);
    write_stay(out, "to", "arrival", &leg.to);
    out.member("seconds", &leg.seconds);
    out.end_object();
}

// Writes the rides and walks of a journey, if they are reported.
fn write_legs(out: &mut JsonWriter, legs: &Option<Vec<Leg>>) {
    let Some(legs) = legs else {
        out.null();
        return;
    };
    out.begin_list();
    for leg in legs {
        write_leg(out, leg);
    }
    out.end_list();
}

// Writes a time, if it is reported.
fn write_some_time(out: &mut JsonWriter, time: &Option<Time>) {
    match time {
        Some(time) => write_time(out, time),
        None => out.null(),
    }
}

// Writes what is reported of a window; nothing if there is none.
fn write_window(out: &mut JsonWriter, window: &Option<Window>) {
    if let Some(window) = window {
        out.name("until");
        write_time(out, &window.until);
        out.member("walk_seconds", &window.walk_seconds);
        out.name("more_from");
        write_some_time(out, &window.next);
    }
}

// Writes a journey.
fn write_journey(out: &mut JsonWriter, journey: &Journey) {
    out.begin_object();
    out.member("rides", &journey.rides);
    out.name("departure");
    write_some_time(out, &journey.departure);
    out.name("arrival");
    write_time(out, &journey.arrival);
    out.member("seconds", &journey.seconds);
    out.name("legs");
    write_legs(out, &journey.legs);
    out.end_object();
}

// Writes an answer.
fn write_itinerary(out: &mut JsonWriter, itinerary: &Itinerary<'_>) {
    out.begin_object();
    out.member("command", &itinerary.command);
    out.name("from");
    write_place(out, &itinerary.from);
    out.name("to");
    write_place(out, &itinerary.to);
    out.name("departure");
    write_time(out, &itinerary.departure);
    write_window(out, &itinerary.window);
    out.name("journeys");
    out.begin_list();
    for journey in &itinerary.journeys {
        write_journey(out, journey);
    }
    out.end_list();
    out.end_object();
}

/// An answer as an object of JSON, on one line, without a line's end. It fails only if memory runs out.
pub fn itinerary_json(alloc: Global, itinerary: &Itinerary<'_>) -> Result<String, AllocError> {
    let mut out = JsonWriter::new(alloc);
    write_itinerary(&mut out, itinerary);
    out.into_text()
}
