//! Stops and stations that may be meant by an id that no stop has.

use crate::fold::folded;
use crate::stop::{Columns, StopRow};
use gtfs_text::Sheet;
use std::alloc::{AllocError, Global};
use strsim::osa_distance;

/// How many near stops are reported.
const MOST: usize = 3;

/// The most characters of an id that near stops are looked for.
const LONGEST: usize = 64;

// A stop, by how far it is from what was asked for.
#[derive(Clone, Copy, PartialEq, Eq, PartialOrd, Ord)]
struct Near<'a> {
    distance: usize,
    stop: StopRow<'a>,
}

// How many characters have to be put in, taken out, changed or swapped with the next to make one text of the other; none if they are more
// than `most`. Both texts are taken without regard to case and accents.
fn distance_to(
    alloc: Global,
    asked: &str,
    text: &str,
    most: usize,
) -> Result<Option<usize>, AllocError> {
    let text = folded(alloc, text)?;
    let (long, short) = (asked.chars().count(), text.as_str().chars().count());
    if short.abs_diff(long) > most {
        return Ok(None);
    }
    let distance = osa_distance(alloc, asked, text.as_str())?;
    Ok(if distance <= most {
        Some(distance)
    } else {
        None
    })
}

// The lesser of two distances, if there is one.
fn lesser(one: Option<usize>, other: Option<usize>) -> Option<usize> {
    match (one, other) {
        (Some(one), Some(other)) => Some(one.min(other)),
        (one, None) => one,
        (None, other) => other,
    }
}

/// At most three stops and stations whose id or name is nearest to the text, the nearest first: so near that no more characters have to be
/// put in, taken out, changed or swapped with the next than a third of the text's, without regard to case and accents. One whose id is the
/// text is passed over. None for a text of more than 64 characters. It fails only if memory runs out.
pub fn near_stops<'a>(
    alloc: Global,
    sheet: &'a Sheet,
    text: &str,
) -> Result<Vec<StopRow<'a>>, AllocError> {
    let asked = folded(alloc, text)?;
    let length = asked.as_str().chars().count();
    let mut near = Vec::new(alloc);
    if length <= LONGEST {
        let most = length / 3;
        let columns = Columns::of(sheet);
        for before in 0..sheet.rows() {
            let stop = columns.stop_of(sheet, before + 1);
            if stop.id == text {
                continue;
            }
            let by_id = distance_to(alloc, asked.as_str(), stop.id, most)?;
            let by_name = distance_to(alloc, asked.as_str(), stop.name, most)?;
            if let Some(distance) = lesser(by_id, by_name) {
                near.push(Near { distance, stop })?;
            }
        }
    }
    near.sort_unstable();
    near.truncate(MOST);
    near.iter().map(|near| near.stop).collect(alloc)
}
