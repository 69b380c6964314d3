//! Lines that are added to those of a fault.

use crate::meant::{Meant, meant_by};
use crate::parts::parts_of;
use command_line::Given;
use faults::Fault;
use feed_names::open_names;
use file_places::{PartsLine, folder_hint};
use gtfs_tables::{FaultKind, FeedFault};
use gtfs_text::Sheet;
use pattern_query::Refusal;
use service_days::DayFault;
use shown_ids::Shown;
use std::alloc::{AllocError, Global};
use std::{fmt, format};
use stop_search::StopRow;

/// How many stops of a station are printed.
const MOST: usize = 20;

/// The zone that is named if the words name none.
const ZONE: &str = "Europe/Berlin";

// Whether a byte may stand in the name of a zone.
fn is_of_name(byte: u8) -> bool {
    byte.is_ascii_alphanumeric() || byte == b'/' || byte == b'_' || byte == b'-' || byte == b'+'
}

// Whether a text looks like the name of a zone, as Europe/Berlin.
fn names_zone(text: &str) -> bool {
    match text.split_once('/') {
        Some((area, place)) => {
            !area.is_empty()
                && !place.is_empty()
                && text.as_bytes().iter().all(|byte| is_of_name(*byte))
        }
        None => false,
    }
}

// How the rule of a zone is got, if a name was given in its place.
fn zone_hint(alloc: Global, zone: &str) -> Result<String, AllocError> {
    let name = if names_zone(zone) { zone } else { ZONE };
    format!(in alloc;
        "--zone takes a POSIX rule. `tail -n 1 /usr/share/zoneinfo/{name}` prints that of {name}.\n"
    )
}

// Stops as lines that begin with a word, and how many more there are.
#[derive(Clone, Copy)]
struct StopLines<'a> {
    word: &'a str,
    stops: &'a [StopRow<'a>],
    more: usize,
}

// Writes a line for each stop.
fn write_stops<W: fmt::Write>(
    f: &mut fmt::Formatter<W>,
    word: &str,
    stops: &[StopRow<'_>],
) -> fmt::Result {
    for stop in stops {
        writeln!(f, "{word}: {stop}")?;
    }
    Ok(())
}

impl fmt::Display for StopLines<'_> {
    fn fmt<W: fmt::Write>(&self, f: &mut fmt::Formatter<W>) -> fmt::Result {
        write_stops(f, self.word, self.stops)?;
        if self.more == 0 {
            return Ok(());
        }
        writeln!(f, "more {}", self.more)
    }
}

// Stops as lines that begin with a word: the first of them, and how many more there are.
fn stop_lines<'a>(word: &'a str, stops: &'a [StopRow<'a>]) -> StopLines<'a> {
    let (stops, more) = match stops.split_at_checked(MOST) {
        Some((first, others)) => (first, others.len()),
        None => (stops, 0),
    };
    StopLines { word, stops, more }
}

// The lines of a station, and of its stops.
fn station_lines(alloc: Global, id: &str, stops: &[StopRow<'_>]) -> Result<String, AllocError> {
    let station = Shown(id);
    if stops.is_empty() {
        return format!(in alloc;
            "{station} is a station, which only ask and serve take. It has no stops.\n"
        );
    }
    let lines = stop_lines("stop", stops);
    format!(in alloc; "{station} is a station, which only ask and serve take. Its stops:\n{lines}")
}

// The lines of the stops that may be meant by an id.
fn meant_lines(alloc: Global, id: &str, meant: &Meant<'_>) -> Result<String, AllocError> {
    if meant.of_station {
        return station_lines(alloc, id, meant.stops.as_slice());
    }
    let lines = stop_lines("near", meant.stops.as_slice());
    format!(in alloc; "{lines}")
}

// The lines of an id that no stop of the sheet has; none without a sheet.
fn id_lines(alloc: Global, sheet: &Option<Sheet>, id: &str) -> Result<String, AllocError> {
    match sheet {
        Some(sheet) => {
            let meant = meant_by(alloc, sheet, id)?;
            meant_lines(alloc, id, &meant)
        }
        None => Ok(String::new(alloc)),
    }
}

// The lines of an id that no stop in the folder has: if a station has it, those of the station's stops, and else of stops that are near it.
fn place_hint(
    rt: &HostRuntime,
    alloc: Global,
    folder: &str,
    id: &str,
) -> Result<String, AllocError> {
    let sheet = open_names(rt, alloc, folder, "stops.txt")?;
    id_lines(alloc, &sheet, id)
}

// What is said of a fault of the feed: if a file isn't there, perhaps the folder isn't.
fn feed_note(
    rt: &HostRuntime,
    alloc: Global,
    folder: &str,
    fault: &FeedFault,
) -> Result<String, AllocError> {
    match fault.kind {
        FaultKind::MissingFile | FaultKind::ReadFailed => folder_hint(rt, alloc, folder),
        _ => Ok(String::new(alloc)),
    }
}

// What is said of a fault of the feed in a folder, or of a question, beside what stands at its place.
fn folder_note(
    rt: &HostRuntime,
    alloc: Global,
    folder: &str,
    fault: &Fault<'_>,
) -> Result<String, AllocError> {
    match fault {
        Fault::Feed(fault) => feed_note(rt, alloc, folder, fault),
        Fault::Question(Refusal::UnknownStop(id)) => place_hint(rt, alloc, folder, id),
        _ => Ok(String::new(alloc)),
    }
}

// What is said of a fault beside what stands at its place.
fn note(
    rt: &HostRuntime,
    alloc: Global,
    given: &Given<'_>,
    fault: &Fault<'_>,
) -> Result<String, AllocError> {
    match (fault, given.zone, given.feed) {
        (Fault::Days(DayFault::BadZone), Some(zone), _) => zone_hint(alloc, zone),
        (_, _, Some(folder)) => folder_note(rt, alloc, folder, fault),
        _ => Ok(String::new(alloc)),
    }
}

/// The lines that are added to those of a fault: none if there is nothing to add. It fails only if memory runs out.
pub fn hint(
    rt: &HostRuntime,
    alloc: Global,
    given: &Given<'_>,
    fault: &Fault<'_>,
) -> Result<String, AllocError> {
    let parts = parts_of(rt, alloc, given, fault)?;
    let note = note(rt, alloc, given, fault)?;
    format!(in alloc; "{}{note}", PartsLine(parts.as_slice()))
}
