//! What a feed has, lists of its stops, the stops that one reaches, how long one is on the way, and faults: as JSON, as GeoJSON, and what
//! one reaches as CSV. All that they say is given: no feed is read here.
#![tactic(auto)]

mod fault;
mod feed;
mod reach;
mod stop_list;
mod stop_map;
mod table;
mod timed;

pub use fault::{FaultListWriter, FaultText, GivenText, NamedStop, fault_text_json};
pub use feed::{FeedText, feed_json};
pub use reach::{ReachText, ReachedText, reach_geojson, reach_json};
pub use stop_list::{BuildCount, ListedStop, StopList, stop_list_json};
pub use stop_map::stop_list_geojson;
pub use table::{reach_csv, times_csv};
pub use timed::{TimedText, TimesText, times_geojson, times_json};
