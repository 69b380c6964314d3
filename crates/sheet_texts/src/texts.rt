//! Texts in formats, each with a line's end. Each call fails only if memory runs out.

use answer_lines::DayTime;
use feed_texts::{StopList, stop_list_geojson, stop_list_json};
use itineraries::Asked;
use itinerary_texts::{Itinerary, geojson, itinerary_json, people_text};
use option_words::Format;
use questions::{Question, Within};
use std::alloc::{AllocError, Global};

// The last time to leave at, if one is named.
fn until_of(within: Option<Within>) -> Option<DayTime> {
    let until = within?.until?;
    Some(DayTime {
        date: until.day,
        seconds: until.seconds,
    })
}

/// What was asked by a command, for an answer in a format.
pub fn asked_by<'a>(command: &'a str, question: &Question<'a>, format: Format) -> Asked<'a> {
    Asked {
        command,
        from: question.from,
        to: question.to,
        departs: DayTime {
            date: question.day,
            seconds: question.seconds,
        },
        until: until_of(question.within),
        through: format == Format::GeoJson,
    }
}

/// A text with a line's end after it.
pub fn line(text: String) -> Result<String, AllocError> {
    let mut text = text;
    text.push('\n')?;
    Ok(text)
}

// The text of an itinerary in a format. No command that answers with one takes CSV, so that is JSON here.
fn itinerary_text(
    alloc: Global,
    format: Format,
    itinerary: &Itinerary<'_>,
) -> Result<String, AllocError> {
    match format {
        Format::Names => people_text(alloc, itinerary),
        Format::Json | Format::Csv => line(itinerary_json(alloc, itinerary)?),
        Format::GeoJson => line(geojson(alloc, itinerary)?),
    }
}

/// The text of an itinerary in a format. The itinerary is let go.
pub fn told_text(
    alloc: Global,
    format: Format,
    itinerary: Itinerary<'_>,
) -> Result<String, AllocError> {
    itinerary_text(alloc, format, &itinerary)
}

/// A list of stops in a format: for people as JSON too, and as CSV, which no command asks for.
pub fn stops_text(
    alloc: Global,
    format: Format,
    list: &StopList<'_>,
) -> Result<String, AllocError> {
    match format {
        Format::GeoJson => line(stop_list_geojson(alloc, list)?),
        Format::Names | Format::Json | Format::Csv => line(stop_list_json(alloc, list)?),
    }
}
