//! What the names of a feed are names of.

/// A stop or a station, with what the feed says of it to people.
#[derive(Drop)]
pub struct Place {
    pub id: String,
    pub name: Option<String>,
    pub platform: Option<String>,
    /// In degrees, from -90 to 90.
    pub latitude: Option<f64>,
    /// In degrees, from -180 to 180.
    pub longitude: Option<f64>,
}

/// A route, with what the feed says of it to people.
#[derive(Drop)]
pub struct Route {
    pub id: String,
    pub short_name: Option<String>,
    pub long_name: Option<String>,
}

/// A trip, with what the feed says of it to people.
#[derive(Drop)]
pub struct Trip {
    pub id: String,
    pub headsign: Option<String>,
    pub short_name: Option<String>,
    pub route: Option<Route>,
}
