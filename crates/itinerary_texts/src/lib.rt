//! Journeys with names as text for people, as JSON and as GeoJSON. All that they say is given: no feed is read here.
#![tactic(auto)]

mod geo;
mod itinerary;
mod people;
mod plain;
mod time;

pub use geo::{Position, begin_feature, begin_features, end_features, geojson, position_of};
pub use itinerary::{Frequency, Itinerary, Journey, Kind, Leg, Stay, Window};
pub use people::people_text;
pub use plain::{itinerary_json, write_iso, write_place, write_place_members, write_time};
pub use time::{Shown, Time, ZoneClock};
