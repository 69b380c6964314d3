//! Stops and stations that are listed.

use crate::fold::{folded, is_part};
use crate::stop::{Columns, StopRow};
use gtfs_text::Sheet;
use std::alloc::{AllocError, Global};
use std::fmt;

/// How many stops are listed if not all are asked for.
const MOST: usize = 20;

/// The names of the fields of a line, as stops.txt has them.
pub const FIELDS: &str = "stop_id\tstop_name\tparent_station\tstop_lat\tstop_lon";

/// The stops and stations that are listed, and how many more there are. Shown as a line for each, and `more N` if there are more.
#[derive(Drop)]
pub struct Listing<'a> {
    pub stops: Vec<StopRow<'a>>,
    pub more: usize,
}

impl fmt::Display for Listing<'_> {
    fn fmt<W: fmt::Write>(&self, f: &mut fmt::Formatter<W>) -> fmt::Result {
        for stop in &self.stops {
            writeln!(f, "{stop}")?;
        }
        if self.more > 0 {
            writeln!(f, "more {}", self.more)?;
        }
        Ok(())
    }
}

// The stops and stations whose id or name contains the text, without regard to case and accents.
fn found<'a>(alloc: Global, sheet: &'a Sheet, text: &str) -> Result<Vec<StopRow<'a>>, AllocError> {
    let part = folded(alloc, text)?;
    let columns = Columns::of(sheet);
    let mut found = Vec::new(alloc);
    for before in 0..sheet.rows() {
        let stop = columns.stop_of(sheet, before + 1);
        if stop.id.is_empty() {
            continue;
        }
        if is_part(alloc, part.as_str(), stop.id)? || is_part(alloc, part.as_str(), stop.name)? {
            found.push(stop)?;
        }
    }
    Ok(found)
}

/// The stops and stations of stops.txt whose id or name contains the text, without regard to case and accents, in the order of their names
/// and then of their ids: the first twenty, or all of them. It fails only if memory runs out.
pub fn list_stops<'a>(
    alloc: Global,
    sheet: &'a Sheet,
    text: &str,
    all: bool,
) -> Result<Listing<'a>, AllocError> {
    let mut stops = found(alloc, sheet, text)?;
    stops.sort_unstable();
    let more = if all {
        0
    } else {
        stops.len().saturating_sub(MOST)
    };
    stops.truncate(stops.len() - more);
    Ok(Listing { stops, more })
}
