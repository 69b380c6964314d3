//! Which stops an id names.

ghost use Rattle.std.specs.Prelude.{◌≡◌};
ghost use Rattle.std.specs.Option.{option_map};
ghost use Rattle.feed_ids.specs.Names.{stops_at, stops_in};

use feed_ids::{Names, Place};
use std::slice;
use timetable::StopId;

/// The place of an id: its stop, else its station; none if the id names nothing.
pub fn place_named<'a>(names: &'a Names, id: &str) -> Option<Place<'a>>
    ensures { option_map stops_in result ≡ stops_at names.now id.now }
{
    names.place(id)
}

/// The stops of a place: the stop itself, or those of the station in the order of their numbers.
pub fn stops_of<'a>(place: &'a Place<'a>) -> &'a [StopId]
    ensures { result.now ≡ stops_in place.now }
{
    match place {
        Place::Stop(stop) => slice::from_ref(stop),
        Place::Station(stops) => stops,
    }
}
