//! Laws of the definitions.

ghost use Rattle.gtfs_stops.specs.Laws.{StopsHaveTheirStations};

/// In a file whose tests hold a stop has no station if its row names no `parent_station`, else the number of the station
/// that the row names.
pub fn stops_have_their_stations()
    ensures { StopsHaveTheirStations }
{}
