//! How long one is on the way, as JSON and as GeoJSON (RFC 7946).

use crate::stop_map::{begin_stop, end_stop};
use feed_names::Place;
use itinerary_texts::{Time, begin_features, end_features, write_place, write_time};
use json_writer::JsonWriter;
use std::alloc::{AllocError, Global};

/// How many seconds one is on the way to a stop, over the seconds of a window.
#[derive(Drop)]
pub struct TimedText {
    pub place: Place,
    pub least: u32,
    pub median: Option<u32>,
    pub greatest: Option<u32>,
}

/// How long one is on the way who leaves a stop within a window.
#[derive(Drop)]
pub struct TimesText<'a> {
    pub command: &'a str,
    pub from: Place,
    pub first: Time,
    pub last: Time,
    pub stops: Vec<TimedText>,
}

// Writes the numbers of seconds.
fn write_seconds(out: &mut JsonWriter, timed: &TimedText) {
    out.member("least", &timed.least);
    out.member("median", &timed.median);
    out.member("greatest", &timed.greatest);
}

// Writes a stop with its numbers.
fn write_timed(out: &mut JsonWriter, timed: &TimedText) {
    out.begin_object();
    out.name("stop");
    write_place(out, &timed.place);
    write_seconds(out, timed);
    out.end_object();
}

// Writes the times.
fn write_times(out: &mut JsonWriter, times: &TimesText<'_>) {
    out.begin_object();
    out.member("command", &times.command);
    out.name("from");
    write_place(out, &times.from);
    out.name("departure");
    write_time(out, &times.first);
    out.name("until");
    write_time(out, &times.last);
    out.name("times");
    out.begin_list();
    for timed in &times.stops {
        write_timed(out, timed);
    }
    out.end_list();
    out.end_object();
}

/// The times as an object of JSON, on one line, without a line's end. It fails only if memory runs out.
pub fn times_json(alloc: Global, times: &TimesText<'_>) -> Result<String, AllocError> {
    let mut out = JsonWriter::new(alloc);
    write_times(&mut out, times);
    out.into_text()
}

// Writes a stop as a feature. Its minutes are those of the median, rounded up.
fn write_feature(out: &mut JsonWriter, timed: &TimedText) {
    begin_stop(out, &timed.place);
    write_seconds(out, timed);
    let minutes = timed.median.map(|seconds| seconds.div_ceil(60));
    out.member("minutes", &minutes);
    end_stop(out);
}

/// The times as GeoJSON, on one line, without a line's end: a feature for each stop, in their order. It fails only if memory runs out.
pub fn times_geojson(alloc: Global, times: &TimesText<'_>) -> Result<String, AllocError> {
    let mut out = JsonWriter::new(alloc);
    begin_features(&mut out);
    for timed in &times.stops {
        write_feature(&mut out, timed);
    }
    end_features(&mut out);
    out.into_text()
}
