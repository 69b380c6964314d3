//! How long one is on the way, in formats. Each call fails only if memory runs out.

use crate::names::names_of;
use crate::texts::line;
use answer_lines::{TimedStop, TimedStops};
use feed_names::{NameSheets, Names};
use feed_texts::{TimedText, TimesText, times_csv, times_geojson, times_json};
use itinerary_texts::ZoneClock;
use option_words::Format;
use std::alloc::{AllocError, Global};

// The id of a stop.
fn id_of<'r>(timed: &TimedStop<'r>) -> &'r str {
    timed.stop
}

// The ids of the stops that one goes to.
fn ids_of<'r>(alloc: Global, times: &TimedStops<'r>) -> Result<Vec<&'r str>, AllocError> {
    times.stops.iter().map(id_of).collect(alloc)
}

// A stop with its names.
fn timed_of(alloc: Global, names: &Names, timed: &TimedStop<'_>) -> Result<TimedText, AllocError> {
    Ok(TimedText {
        place: names.place(alloc, timed.stop)?,
        least: timed.least,
        median: timed.median,
        greatest: timed.greatest,
    })
}

// The stops with their names.
fn all_of(
    alloc: Global,
    names: &Names,
    stops: &[TimedStop<'_>],
) -> Result<Vec<TimedText>, AllocError> {
    let mut all = Vec::with_capacity(alloc, stops.len())?;
    for timed in stops {
        all.push(timed_of(alloc, names, timed)?)?;
    }
    Ok(all)
}

// The text in a format. The format for people has no form of its own here, so it is JSON.
fn text_of(alloc: Global, format: Format, told: &TimesText<'_>) -> Result<String, AllocError> {
    match format {
        Format::GeoJson => line(times_geojson(alloc, told)?),
        Format::Csv => times_csv(alloc, told),
        Format::Names | Format::Json => line(times_json(alloc, told)?),
    }
}

// The text by these names.
fn text_by<C: ZoneClock>(
    alloc: Global,
    format: Format,
    command: &str,
    clock: &C,
    names: &Names,
    times: &TimedStops<'_>,
) -> Result<String, AllocError> {
    let told = TimesText {
        command,
        from: names.place(alloc, times.from)?,
        first: clock.time(times.first),
        last: clock.time(times.last),
        stops: all_of(alloc, names, &times.stops)?,
    };
    text_of(alloc, format, &told)
}

/// The travel times to stops in a format, with what the sheets have of these.
pub fn times_text<C: ZoneClock>(
    alloc: Global,
    format: Format,
    command: &str,
    clock: &C,
    sheets: &NameSheets,
    times: &TimedStops<'_>,
) -> Result<String, AllocError> {
    let names = names_of(alloc, sheets, times.from, ids_of(alloc, times)?)?;
    text_by(alloc, format, command, clock, &names, times)
}
