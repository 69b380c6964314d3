//! Journeys for people.

use crate::itinerary::{Itinerary, Journey, Kind, Leg, Window};
use feed_names::{Place, Trip};
use shown_ids::Shown;
use std::alloc::{AllocError, Global};
use std::{fmt, format};

// A number of seconds in minutes, rounded up.
fn minutes(seconds: u32) -> u32 {
    seconds.div_ceil(60)
}

// A text after these words; nothing if there is no text.
#[derive(Clone, Copy)]
struct After<'a>(&'static str, &'a Option<String>);

impl fmt::Display for After<'_> {
    fn fmt<W: fmt::Write>(&self, f: &mut fmt::Formatter<W>) -> fmt::Result {
        match self.1 {
            Some(text) => write!(f, "{}{}", self.0, Shown(text.as_str())),
            None => Ok(()),
        }
    }
}

// A place by its name, with its id and its platform.
#[derive(Clone, Copy)]
struct PlaceText<'a>(&'a Place);

impl fmt::Display for PlaceText<'_> {
    fn fmt<W: fmt::Write>(&self, f: &mut fmt::Formatter<W>) -> fmt::Result {
        let id = Shown(self.0.id.as_str());
        let platform = After(", platform ", &self.0.platform);
        match &self.0.name {
            Some(name) => write!(f, "{} ({id}){platform}", Shown(name.as_str())),
            None => write!(f, "{id}{platform}"),
        }
    }
}

// A trip by its route, its own name and where it goes: by its id if the feed has none of these.
#[derive(Clone, Copy)]
struct TripText<'a>(&'a Trip);

// The name of a trip's route: the short one, or else the long one, or else the id.
fn route_name(trip: &Trip) -> Option<&str> {
    let route = trip.route.as_ref()?;
    let name = match (&route.short_name, &route.long_name) {
        (Some(name), _) | (None, Some(name)) => name,
        (None, None) => &route.id,
    };
    Some(name.as_str())
}

impl fmt::Display for TripText<'_> {
    fn fmt<W: fmt::Write>(&self, f: &mut fmt::Formatter<W>) -> fmt::Result {
        let trip = self.0;
        let name = After(" ", &trip.short_name);
        let headsign = After(" towards ", &trip.headsign);
        match route_name(trip) {
            Some(route) => write!(f, "{}{name}{headsign}", Shown(route)),
            None => write!(f, "trip {}{name}{headsign}", Shown(trip.id.as_str())),
        }
    }
}

impl fmt::Display for Leg {
    fn fmt<W: fmt::Write>(&self, f: &mut fmt::Formatter<W>) -> fmt::Result {
        let (departure, arrival) = (&self.from.time, &self.to.time);
        match (self.kind, &self.trip) {
            (Kind::Ride, Some(trip)) => writeln!(
                f,
                "  {departure} board {} at {}\n  {arrival} alight at {}",
                TripText(trip),
                PlaceText(&self.from.place),
                PlaceText(&self.to.place)
            ),
            _ => writeln!(
                f,
                "  {departure} walk {} min to {}",
                minutes(self.seconds.unwrap_or(0)),
                PlaceText(&self.to.place)
            ),
        }
    }
}

impl fmt::Display for Journey {
    fn fmt<W: fmt::Write>(&self, f: &mut fmt::Formatter<W>) -> fmt::Result {
        write!(f, "depart ")?;
        if let Some(departure) = &self.departure {
            write!(f, "{departure}")?;
        }
        writeln!(
            f,
            ", arrive {}, {} min, rides {}",
            self.arrival,
            minutes(self.seconds.unwrap_or(0)),
            self.rides
        )?;
        if let Some(legs) = &self.legs {
            for leg in legs {
                write!(f, "{leg}")?;
            }
        }
        Ok(())
    }
}

// Writes the way on foot, if one may walk, or else that there is no journey, if there is none.
fn write_walk<W: fmt::Write>(
    f: &mut fmt::Formatter<W>,
    window: &Option<Window>,
    journeys: &[Journey],
) -> fmt::Result {
    match window {
        Some(
            Window {
                walk_seconds: Some(seconds),
                ..
            },
        ) => { writeln!(f, "on foot {} min", minutes(*seconds)) }
        _ if journeys.is_empty() => writeln!(f, "no journey"),
        _ => Ok(()),
    }
}

// Writes from when on connections aren't reported.
fn write_next<W: fmt::Write>(f: &mut fmt::Formatter<W>, window: &Option<Window>) -> fmt::Result {
    if let Some(window) = window
        && let Some(next) = &window.next
    {
        writeln!(f, "\nmore from {next}")?;
    }
    Ok(())
}

impl fmt::Display for Itinerary<'_> {
    fn fmt<W: fmt::Write>(&self, f: &mut fmt::Formatter<W>) -> fmt::Result {
        writeln!(
            f,
            "from {} to {}",
            PlaceText(&self.from),
            PlaceText(&self.to)
        )?;
        write_walk(f, &self.window, &self.journeys)?;
        for journey in &self.journeys {
            write!(f, "\n{journey}")?;
        }
        write_next(f, &self.window)
    }
}

/// The journeys for people, a block for each. It says when the journey departs and arrives, its minutes and its rides, and beneath that
/// each ride and walk by its names. Times are those of the zone's clock, and minutes are rounded up. It fails only if memory runs out.
pub fn people_text(alloc: Global, itinerary: &Itinerary<'_>) -> Result<String, AllocError> {
    format!(in alloc; "{itinerary}")
}
