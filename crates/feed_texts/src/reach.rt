//! The stops that one reaches, as JSON and as GeoJSON (RFC 7946).

use crate::stop_map::{begin_stop, end_stop};
use feed_names::Place;
use itinerary_texts::{Time, begin_features, end_features, write_iso, write_place, write_time};
use json_writer::JsonWriter;
use std::alloc::{AllocError, Global};

/// A stop that one reaches.
#[derive(Drop)]
pub struct ReachedText {
    pub place: Place,
    pub arrival: Time,
    pub rides: u8,
    /// From the departure to the arrival.
    pub seconds: u32,
}

/// The stops that one reaches who leaves a stop.
#[derive(Drop)]
pub struct ReachText<'a> {
    pub command: &'a str,
    pub from: Place,
    pub departure: Time,
    pub stops: Vec<ReachedText>,
}

// Writes a stop that one reaches.
fn write_reached(out: &mut JsonWriter, reached: &ReachedText) {
    out.begin_object();
    out.name("stop");
    write_place(out, &reached.place);
    out.name("arrival");
    write_time(out, &reached.arrival);
    out.member("rides", &reached.rides);
    out.member("seconds", &reached.seconds);
    out.end_object();
}

// Writes the stops that one reaches.
fn write_reach(out: &mut JsonWriter, reach: &ReachText<'_>) {
    out.begin_object();
    out.member("command", &reach.command);
    out.name("from");
    write_place(out, &reach.from);
    out.name("departure");
    write_time(out, &reach.departure);
    out.name("reached");
    out.begin_list();
    for reached in &reach.stops {
        write_reached(out, reached);
    }
    out.end_list();
    out.end_object();
}

/// The stops that one reaches as an object of JSON, on one line, without a line's end. It fails only if memory runs out.
pub fn reach_json(alloc: Global, reach: &ReachText<'_>) -> Result<String, AllocError> {
    let mut out = JsonWriter::new(alloc);
    write_reach(&mut out, reach);
    out.into_text()
}

// Writes a stop that one reaches as a feature. Its minutes are rounded up.
fn write_feature(out: &mut JsonWriter, reached: &ReachedText) {
    begin_stop(out, &reached.place);
    write_iso(out, "arrival", &reached.arrival);
    out.member("rides", &reached.rides);
    out.member("minutes", &reached.seconds.div_ceil(60));
    end_stop(out);
}

/// The stops that one reaches as GeoJSON, on one line, without a line's end: a feature for each, in their order. It fails only if memory
/// runs out.
pub fn reach_geojson(alloc: Global, reach: &ReachText<'_>) -> Result<String, AllocError> {
    let mut out = JsonWriter::new(alloc);
    begin_features(&mut out);
    for reached in &reach.stops {
        write_feature(&mut out, reached);
    }
    end_features(&mut out);
    out.into_text()
}
