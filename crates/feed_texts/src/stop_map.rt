//! Stops on a map: GeoJSON (RFC 7946).

use crate::stop_list::{ListedStop, StopList};
use feed_names::Place;
use itinerary_texts::{begin_feature, begin_features, end_features, position_of};
use json_writer::JsonWriter;
use std::alloc::{AllocError, Global};

// Writes where a stop is (RFC 7946, section 3.1.2): nowhere if the feed has no position of it.
fn write_spot(out: &mut JsonWriter, place: &Place) {
    let Some(position) = position_of(place) else {
        out.null();
        return;
    };
    out.begin_object();
    out.member("type", &"Point");
    out.member("coordinates", &position);
    out.end_object();
}

/// Begins the feature of a stop: its point, and its id and names, which are the first of its properties.
pub(crate) fn begin_stop(out: &mut JsonWriter, place: &Place) {
    begin_feature(out);
    write_spot(out, place);
    out.name("properties");
    out.begin_object();
    out.member("id", &place.id);
    out.member("name", &place.name);
    out.member("platform", &place.platform);
}

/// Ends the properties of a stop, and its feature.
pub(crate) fn end_stop(out: &mut JsonWriter) {
    out.end_object();
    out.end_object();
}

// Writes all stops.
fn write_stops(out: &mut JsonWriter, stops: &[ListedStop]) {
    begin_features(out);
    for stop in stops {
        begin_stop(out, &stop.place);
        end_stop(out);
    }
    end_features(out);
}

/// The stops of a list as GeoJSON, on one line, without a line's end: a feature for each, in their order. It fails only if memory runs
/// out.
pub fn stop_list_geojson(alloc: Global, list: &StopList<'_>) -> Result<String, AllocError> {
    let mut out = JsonWriter::new(alloc);
    write_stops(&mut out, &list.stops);
    out.into_text()
}
