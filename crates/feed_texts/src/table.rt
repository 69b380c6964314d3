//! The stops that one reaches, and how long one is on the way, as tables: CSV (RFC 4180), with a header.

use crate::reach::{ReachText, ReachedText};
use crate::timed::{TimedText, TimesText};
use csv::{Terminator, Writer, WriterBuilder};
use feed_names::Place;
use std::alloc::{AllocError, Global};
use std::fmt::Display;

// The columns of a stop, by their names in GTFS Schedule, and three numbers.
const REACH: [&str; 8] = [
    "stop_id",
    "stop_name",
    "platform_code",
    "stop_lat",
    "stop_lon",
    "arrival",
    "rides",
    "seconds",
];

const TIMES: [&str; 8] = [
    "stop_id",
    "stop_name",
    "platform_code",
    "stop_lat",
    "stop_lon",
    "least",
    "median",
    "greatest",
];

// A text, if there is one.
fn text_of(text: &Option<String>) -> &str {
    match text {
        Some(text) => text.as_str(),
        None => "",
    }
}

// Writes a field. Only memory may be refused to it.
fn put(out: &mut Writer<Vec<u8>>, field: &str) -> Result<(), AllocError> {
    match out.write_field(field.as_bytes()) {
        Ok(()) => Ok(()),
        Err(_) => Err(AllocError),
    }
}

// Writes what is shown as a field.
fn put_shown<T: Display + Drop>(
    alloc: Global,
    out: &mut Writer<Vec<u8>>,
    shown: T,
) -> Result<(), AllocError> {
    let text = format!(in alloc; "{shown}")?;
    put(out, text.as_str())
}

// Writes a number as a field, which is empty if there is none.
fn put_number<T: Display + Drop>(
    alloc: Global,
    out: &mut Writer<Vec<u8>>,
    number: Option<T>,
) -> Result<(), AllocError> {
    match number {
        Some(number) => put_shown(alloc, out, number),
        None => put(out, ""),
    }
}

// Ends a row. Only memory may be refused to it.
fn end_row(out: &mut Writer<Vec<u8>>) -> Result<(), AllocError> {
    match out.end_record() {
        Ok(()) => Ok(()),
        Err(_) => Err(AllocError),
    }
}

// Writes the header.
fn put_header(out: &mut Writer<Vec<u8>>, columns: &[&str; 8]) -> Result<(), AllocError> {
    for column in columns {
        put(out, column)?;
    }
    end_row(out)
}

// Writes the fields of a stop, with which its row begins.
fn put_place(alloc: Global, out: &mut Writer<Vec<u8>>, place: &Place) -> Result<(), AllocError> {
    put(out, place.id.as_str())?;
    put(out, text_of(&place.name))?;
    put(out, text_of(&place.platform))?;
    put_number(alloc, out, place.latitude)?;
    put_number(alloc, out, place.longitude)
}

// Writes the row of a stop that one reaches.
fn put_reached(
    alloc: Global,
    out: &mut Writer<Vec<u8>>,
    reached: &ReachedText,
) -> Result<(), AllocError> {
    put_place(alloc, out, &reached.place)?;
    put_shown(alloc, out, reached.arrival.told)?;
    put_shown(alloc, out, reached.rides)?;
    put_shown(alloc, out, reached.seconds)?;
    end_row(out)
}

// Writes the row of a stop with its travel times.
fn put_timed(
    alloc: Global,
    out: &mut Writer<Vec<u8>>,
    timed: &TimedText,
) -> Result<(), AllocError> {
    put_place(alloc, out, &timed.place)?;
    put_shown(alloc, out, timed.least)?;
    put_number(alloc, out, timed.median)?;
    put_number(alloc, out, timed.greatest)?;
    end_row(out)
}

// Writes the stops that one reaches.
fn put_reach(
    alloc: Global,
    out: &mut Writer<Vec<u8>>,
    stops: &[ReachedText],
) -> Result<(), AllocError> {
    put_header(out, &REACH)?;
    for reached in stops {
        put_reached(alloc, out, reached)?;
    }
    Ok(())
}

// Writes the travel times to stops.
fn put_times(
    alloc: Global,
    out: &mut Writer<Vec<u8>>,
    stops: &[TimedText],
) -> Result<(), AllocError> {
    put_header(out, &TIMES)?;
    for timed in stops {
        put_timed(alloc, out, timed)?;
    }
    Ok(())
}

// A table without a row.
fn empty_table(alloc: Global) -> Writer<Vec<u8>> {
    WriterBuilder::new()
        .terminator(Terminator::CRLF)
        .from_writer(Vec::new(alloc))
}

// The text of a table.
fn end(out: Writer<Vec<u8>>) -> Result<String, AllocError> {
    let bytes = match out.into_inner() {
        Ok(bytes) => bytes,
        Err(_) => return Err(AllocError),
    };
    match String::from_utf8(bytes) {
        Ok(text) => Ok(text),
        Err(_) => Err(AllocError),
    }
}

/// The stops that one reaches as CSV: the header and a row for each, in their order, each with its end. It fails only if memory runs out.
pub fn reach_csv(alloc: Global, reach: &ReachText<'_>) -> Result<String, AllocError> {
    let mut out = empty_table(alloc);
    put_reach(alloc, &mut out, &reach.stops)?;
    end(out)
}

/// The travel times to stops as CSV: the header and a row for each, in their order, each with its end. A number that isn't there is empty.
/// It fails only if memory runs out.
pub fn times_csv(alloc: Global, times: &TimesText<'_>) -> Result<String, AllocError> {
    let mut out = empty_table(alloc);
    put_times(alloc, &mut out, &times.stops)?;
    end(out)
}
