//! From an id to what it names, and back.

ghost use Rattle.std.specs.Prelude.{◌≡◌, [], ◌<◌, ◌≤◌, length, map, slice_index_or, IfOk, IfSome};
ghost use Rattle.std.specs.List.{All};
ghost use Rattle.std.specs.String.{string_bytes};
ghost use Rattle.feed_ids.specs.Groups.{AreBelow};
ghost use Rattle.feed_ids.specs.Names.{IsPlaceOf, KnowsStops, stop_named, stops_in};

use crate::groups::Groups;
use crate::ids::Ids;
use std::alloc::{AllocError, Global};
use std::hash::RandomState;
use std::marker::Model;
use timetable::StopId;

/// What an id names.
#[derive(Clone, Copy)]
pub enum Place<'a> {
    Stop(StopId),
    /// A station, by its stops in the order of their numbers.
    Station(&'a [StopId]),
}

/// The ids of a feed's stops, stations and trips.
pub struct Names {
    stops: Ids,
    stations: Ids,
    trips: Vec<String>,
    children: Groups<StopId>,
}

// A drop by hand is one call at each exit of a function that holds the value. A derived one is many (docs/CHECKING.md).
impl Drop for Names {
    fn drop(self) {
        let Names {
            stops: _,
            stations: _,
            trips: _,
            children: _,
        } = self;
    }
}

impl Model for Names {
    ghost use Rattle.std.specs.Prelude.{◌≤◌, length, map};
    ghost use Rattle.std.specs.String.{string_bytes};
    ghost use Rattle.feed_ids.specs.Groups.{AreBelow};
    ghost use Rattle.feed_ids.specs.NameLists.{NameLists};

    ghost Value = { NameLists };

    ghost view = { λ a. record { stops = a.stops; stations = a.stations; trips = map string_bytes a.trips.items; children = a.children } };

    ghost invariant = { λ a. (length a.stops ≤ 1_000_000) × AreBelow (length a.stops) a.children };
}

impl Names {
    /// The names of these ids, each list by number, and of the stops of each station. Ids are looked up under `hash_keys`, which nobody
    /// who writes a feed can know.
    pub fn new(
        alloc: Global,
        hash_keys: RandomState,
        stops: Vec<String>,
        stations: Vec<String>,
        trips: Vec<String>,
        children: Groups<StopId>,
    ) -> Result<Names, AllocError>
        requires few { length stops.items ≤ 1_000_000 }
        requires known { AreBelow (length stops.items) children }
        ensures stops { IfOk result (λ names. names.stops ≡ map string_bytes stops.items) }
        ensures stations { IfOk result (λ names. names.stations ≡ map string_bytes stations.items) }
        ensures trips { IfOk result (λ names. names.trips ≡ map string_bytes trips.items) }
        ensures children { IfOk result (λ names. names.children ≡ children) }
    {
        let stops = Ids::new(alloc, hash_keys, stops)?;
        let stations = Ids::new(alloc, hash_keys, stations)?;
        Ok(Names {
            stops,
            stations,
            trips,
            children,
        })
    }

    /// The id of a stop.
    pub fn stop(&self, stop: StopId) -> &str
        requires { stop < length self.now.stops }
        ensures { result.now ≡ slice_index_or self.now.stops stop [] }
    {
        self.stops.id(stop.number())
    }

    /// The id of a trip, by its number.
    pub fn trip(&self, number: u32) -> &str
        requires { number < length self.now.trips }
        ensures { result.now ≡ slice_index_or self.now.trips number [] }
    {
        self.trips[number as usize].as_str()
    }

    /// The stop of that id; none if the id names a station or nothing.
    pub fn stop_named(&self, id: &str) -> Option<StopId>
        ensures value { result ≡ stop_named self.now id.now }
        ensures known { IfSome result (λ stop. stop < length self.now.stops) }
    {
        match self.stops.number(id) {
            Some(number) => Some(StopId::new(number as u32)),
            None => None,
        }
    }

    /// What the id names: the stop of that id, else the station, by its stops in the order of their numbers.
    pub fn place(&self, id: &str) -> Option<Place<'_>>
        ensures value { IsPlaceOf self.now id.now result }
        ensures known { IfSome result (λ place. All (λ stop. stop < length self.now.stops) (stops_in place)) }
    {
        if let Some(stop) = self.stop_named(id) {
            return Some(Place::Stop(stop));
        }
        match self.stations.number(id) {
            Some(number) => Some(Place::Station(self.children.of(number))),
            None => None,
        }
    }

    /// A law of names: each stop that an id stands for is one of theirs. Nothing is run.
    pub fn know_their_stops(&self)
        ensures { KnowsStops self.now }
    {
        let _ = &self.children;
    }
}
