//! Lists of stops as JSON.

use feed_names::Place;
use itinerary_texts::write_place_members;
use json_writer::JsonWriter;
use std::alloc::{AllocError, Global};

/// A stop or a station of a list.
#[derive(Drop)]
pub struct ListedStop {
    pub place: Place,
    /// The id of the station that the stop belongs to, if the list has it: empty if the stop belongs to none.
    pub station: Option<String>,
}

/// How many stops have their tree in a store, and how many stops there are.
#[derive(Clone, Copy)]
pub struct BuildCount {
    pub stored: usize,
    pub of: usize,
}

/// Stops that a command lists.
#[derive(Drop)]
pub struct StopList<'a> {
    pub command: &'a str,
    /// What a build came to: its list has the stops without a tree.
    pub built: Option<BuildCount>,
    pub stops: Vec<ListedStop>,
    /// How many stops more there are, if the list may be cut.
    pub more: Option<usize>,
}

// Writes the station of a stop, if the list has it.
fn write_station(out: &mut JsonWriter, station: &Option<String>) {
    let Some(station) = station else {
        return;
    };
    out.name("station");
    if station.is_empty() {
        out.null();
    } else {
        out.value(station);
    }
}

// Writes the stops.
fn write_stops(out: &mut JsonWriter, stops: &[ListedStop]) {
    out.begin_list();
    for stop in stops {
        out.begin_object();
        write_place_members(out, &stop.place);
        write_station(out, &stop.station);
        out.end_object();
    }
    out.end_list();
}

// Writes what a build came to, and the name under which the stops stand.
fn write_name(out: &mut JsonWriter, built: &Option<BuildCount>) {
    match built {
        None => out.name("stops"),
        Some(built) => {
            out.member("stored", &built.stored);
            out.member("of", &built.of);
            out.name("missing");
        }
    }
}

// Writes a list of stops.
fn write_list(out: &mut JsonWriter, list: &StopList<'_>) {
    out.begin_object();
    out.member("command", &list.command);
    write_name(out, &list.built);
    write_stops(out, &list.stops);
    if let Some(more) = &list.more {
        out.member("more", more);
    }
    out.end_object();
}

/// A list of stops as an object of JSON, on one line, without a line's end. It fails only if memory runs out.
pub fn stop_list_json(alloc: Global, list: &StopList<'_>) -> Result<String, AllocError> {
    let mut out = JsonWriter::new(alloc);
    write_list(&mut out, list);
    out.into_text()
}
