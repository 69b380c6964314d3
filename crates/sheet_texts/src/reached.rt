//! The stops that one reaches, in formats. Each call fails only if memory runs out.

use crate::names::names_of;
use crate::texts::line;
use answer_lines::{Reach, ReachedStop};
use feed_names::{NameSheets, Names};
use feed_texts::{ReachText, ReachedText, reach_csv, reach_geojson, reach_json};
use itinerary_texts::ZoneClock;
use option_words::Format;
use std::alloc::{AllocError, Global};

// The id of a stop.
fn id_of<'r>(reached: &ReachedStop<'r>) -> &'r str {
    reached.stop
}

// The ids of the stops that one reaches.
fn ids_of<'r>(alloc: Global, reach: &Reach<'r>) -> Result<Vec<&'r str>, AllocError> {
    reach.stops.iter().map(id_of).collect(alloc)
}

// A stop that one reaches, as the clock and the names say it.
fn reached_of<C: ZoneClock>(
    alloc: Global,
    clock: &C,
    names: &Names,
    reached: &ReachedStop<'_>,
) -> Result<ReachedText, AllocError> {
    Ok(ReachedText {
        place: names.place(alloc, reached.stop)?,
        arrival: clock.time(reached.arrives),
        rides: reached.rides,
        seconds: reached.seconds,
    })
}

// All of them.
fn all_of<C: ZoneClock>(
    alloc: Global,
    clock: &C,
    names: &Names,
    stops: &[ReachedStop<'_>],
) -> Result<Vec<ReachedText>, AllocError> {
    let mut all = Vec::with_capacity(alloc, stops.len())?;
    for reached in stops {
        all.push(reached_of(alloc, clock, names, reached)?)?;
    }
    Ok(all)
}

// The text in a format. The format for people has no form of its own here, so it is JSON.
fn text_of(alloc: Global, format: Format, told: &ReachText<'_>) -> Result<String, AllocError> {
    match format {
        Format::GeoJson => line(reach_geojson(alloc, told)?),
        Format::Csv => reach_csv(alloc, told),
        Format::Names | Format::Json => line(reach_json(alloc, told)?),
    }
}

// The text by these names.
fn text_by<C: ZoneClock>(
    alloc: Global,
    format: Format,
    command: &str,
    clock: &C,
    names: &Names,
    reach: &Reach<'_>,
) -> Result<String, AllocError> {
    let told = ReachText {
        command,
        from: names.place(alloc, reach.from)?,
        departure: clock.time(reach.departs),
        stops: all_of(alloc, clock, names, &reach.stops)?,
    };
    text_of(alloc, format, &told)
}

/// The stops that one reaches in a format, with what the sheets have of them.
pub fn reach_text<C: ZoneClock>(
    alloc: Global,
    format: Format,
    command: &str,
    clock: &C,
    sheets: &NameSheets,
    reach: &Reach<'_>,
) -> Result<String, AllocError> {
    let names = names_of(alloc, sheets, reach.from, ids_of(alloc, reach)?)?;
    text_by(alloc, format, command, clock, &names, reach)
}
