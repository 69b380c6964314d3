//! What a feed has, for machines.

use answer_lines::ShownDate;
use civil_dates::Date;
use feed_report::{Counts, FeedReport, Missing, Service};
use gtfs_tables::Skipped;
use json_writer::JsonWriter;
use service_span::DayTrips;
use std::alloc::{AllocError, Global};
use std::format;

/// What a feed has, as a command reports it.
#[derive(Clone, Copy)]
pub struct FeedText<'a> {
    pub command: &'a str,
    pub report: &'a FeedReport,
    /// The names in the feed's folder that aren't read: none if the system doesn't list it.
    pub unread: Option<&'a [&'a str]>,
}

// Writes how many of each the feed has.
fn write_counts(out: &mut JsonWriter, counts: &Counts) {
    out.member("stops", &counts.stops);
    out.member("stations", &counts.stations);
    out.member("services", &counts.services);
    out.member("trips", &counts.trips);
    out.member("calls", &counts.calls);
    out.member("transfers", &counts.transfers);
    out.member("frequencies", &counts.frequencies);
}

// Writes a date.
fn write_date(
    alloc: Global,
    out: &mut JsonWriter,
    name: &str,
    date: Date,
) -> Result<(), AllocError> {
    let text = format!(in alloc; "{}", ShownDate(date))?;
    out.plain_member(name, text.as_str());
    Ok(())
}

// Writes how many trips run on each of some days.
fn write_days(alloc: Global, out: &mut JsonWriter, days: &[DayTrips]) -> Result<(), AllocError> {
    out.name("days");
    out.begin_list();
    for day in days {
        out.begin_object();
        write_date(alloc, out, "date", day.date)?;
        out.member("trips", &day.trips);
        out.end_object();
    }
    out.end_list();
    Ok(())
}

// Writes the days of service: nothing of them is known if there are none.
fn write_service(
    alloc: Global,
    out: &mut JsonWriter,
    service: &Option<Service>,
) -> Result<(), AllocError> {
    let Some(service) = service else {
        out.member("first_day", &());
        out.member("last_day", &());
        return write_days(alloc, out, &[]);
    };
    write_date(alloc, out, "first_day", service.span.first)?;
    write_date(alloc, out, "last_day", service.span.last)?;
    write_days(alloc, out, &service.week)
}

// Writes how many rows were left out.
fn write_skipped(out: &mut JsonWriter, skipped: &Skipped) {
    out.name("skipped");
    out.begin_object();
    out.member("stop_times.txt", &skipped.calls);
    out.member("transfers.txt", &skipped.transfers);
    out.end_object();
}

// Writes the name of a file that is missing.
fn write_file(out: &mut JsonWriter, missing: bool, file: &str) {
    if missing {
        out.value(&file);
    }
}

// Writes which optional files are missing.
fn write_missing(out: &mut JsonWriter, missing: &Missing) {
    out.name("missing");
    out.begin_list();
    write_file(out, missing.calendar, "calendar.txt");
    write_file(out, missing.calendar_dates, "calendar_dates.txt");
    write_file(out, missing.transfers, "transfers.txt");
    write_file(out, missing.frequencies, "frequencies.txt");
    out.end_list();
}

// Writes what a feed has.
fn write_feed(alloc: Global, out: &mut JsonWriter, text: &FeedText<'_>) -> Result<(), AllocError> {
    let counts = &text.report.counts;
    out.begin_object();
    out.member("command", &text.command);
    write_counts(out, counts);
    write_service(alloc, out, &counts.service)?;
    write_skipped(out, &counts.skipped);
    write_missing(out, &counts.missing);
    out.member("unread", &text.unread);
    out.end_object();
    Ok(())
}

/// What a feed has as an object of JSON, on one line, without a line's end. It fails only if memory runs out.
pub fn feed_json(alloc: Global, text: &FeedText<'_>) -> Result<String, AllocError> {
    let mut out = JsonWriter::new(alloc);
    write_feed(alloc, &mut out, text)?;
    out.into_text()
}
