//! Stops that are searched for, and what a feed has.

use crate::texts::{line, stops_text};
use feed_names::{NameSheets, Place};
use feed_report::{FeedReport, is_feed_file};
use feed_texts::{FeedText, ListedStop, StopList, feed_json};
use gtfs_text::Sheet;
use itineraries::places_of;
use option_words::{Format, StopSearch, Style};
use std::alloc::{AllocError, Global};
use std::format;
use stop_search::{FIELDS, Listing, StopRow, list_stops};

// The listed stops as lines, perhaps with the names of the fields first.
fn listing_lines(alloc: Global, listing: &Listing<'_>, header: bool) -> Result<String, AllocError> {
    if header {
        return format!(in alloc; "{FIELDS}\n{listing}");
    }
    format!(in alloc; "{listing}")
}

// A place of a list without stations.
fn listed_stop(place: Place) -> ListedStop {
    ListedStop {
        place,
        station: None,
    }
}

/// The stops of these ids, with what the sheets have of them. It fails only if memory runs out.
pub fn listed_by_ids(
    alloc: Global,
    sheets: &NameSheets,
    ids: &[&str],
) -> Result<Vec<ListedStop>, AllocError> {
    let places = places_of(alloc, sheets, ids)?;
    places.into_iter().map(listed_stop).collect(alloc)
}

// The id of a stop.
fn id_of<'s>(row: &StopRow<'s>) -> &'s str {
    row.id
}

// The ids of these stops.
fn ids_of<'s>(alloc: Global, rows: &[StopRow<'s>]) -> Result<Vec<&'s str>, AllocError> {
    rows.iter().map(id_of).collect(alloc)
}

// Adds the stations of the rows to the stops of a list.
fn add_stations(
    alloc: Global,
    stops: &mut [ListedStop],
    rows: &[StopRow<'_>],
) -> Result<(), AllocError> {
    for (stop, row) in stops.iter_mut().zip(rows) {
        stop.station = Some(String::from_str(alloc, row.station)?);
    }
    Ok(())
}

// The listed stops with what the sheet has of them.
fn listed(
    alloc: Global,
    sheets: &NameSheets,
    rows: &[StopRow<'_>],
) -> Result<Vec<ListedStop>, AllocError> {
    let ids = ids_of(alloc, rows)?;
    let mut stops = listed_by_ids(alloc, sheets, ids.as_slice())?;
    add_stations(alloc, &mut stops, rows)?;
    Ok(stops)
}

// A listing as it is printed.
fn told_listing(
    alloc: Global,
    sheets: &NameSheets,
    listing: &Listing<'_>,
    format: Format,
) -> Result<String, AllocError> {
    let list = StopList {
        command: "stops",
        built: None,
        more: Some(listing.more),
        stops: listed(alloc, sheets, listing.stops.as_slice())?,
    };
    stops_text(alloc, format, &list)
}

// A listing in a style.
fn listing_text(
    alloc: Global,
    sheets: &NameSheets,
    listing: &Listing<'_>,
    search: &StopSearch<'_>,
) -> Result<String, AllocError> {
    match search.style {
        Style::Lines => listing_lines(alloc, listing, search.header),
        Style::Told(format) => told_listing(alloc, sheets, listing, format),
    }
}

// The stops that are searched for among those of a sheet, as they are printed.
fn found_in(
    alloc: Global,
    sheets: &NameSheets,
    sheet: &Sheet,
    search: &StopSearch<'_>,
) -> Result<String, AllocError> {
    let listing = list_stops(alloc, sheet, search.text.unwrap_or(""), search.all)?;
    listing_text(alloc, sheets, &listing, search)
}

/// The stops that are searched for, as they are printed: none if there is no sheet of stops. It fails only if memory runs out.
pub fn found_text(
    alloc: Global,
    sheets: &NameSheets,
    search: &StopSearch<'_>,
) -> Result<Option<String>, AllocError> {
    match &sheets.stops {
        Some(sheet) => Ok(Some(found_in(alloc, sheets, sheet, search)?)),
        None => Ok(None),
    }
}

// The names in the feed's folder that aren't read: none if the system doesn't list it.
fn unread_of<'r>(
    alloc: Global,
    report: &'r FeedReport,
) -> Result<Option<Vec<&'r str>>, AllocError> {
    let Some(names) = &report.names else {
        return Ok(None);
    };
    let mut unread = Vec::new(alloc);
    for name in names {
        if !is_feed_file(name.as_str()) {
            unread.push(name.as_str())?;
        }
    }
    Ok(Some(unread))
}

// What a feed has, as JSON, with the names in its folder that aren't read.
fn json_of(
    alloc: Global,
    report: &FeedReport,
    unread: Option<&[&str]>,
) -> Result<String, AllocError> {
    let text = FeedText {
        command: "check",
        report,
        unread,
    };
    line(feed_json(alloc, &text)?)
}

/// What a feed has, as JSON. It fails only if memory runs out.
pub fn feed_text(alloc: Global, report: &FeedReport) -> Result<String, AllocError> {
    match unread_of(alloc, report)? {
        Some(names) => json_of(alloc, report, Some(names.as_slice())),
        None => json_of(alloc, report, None),
    }
}
