//! Faults for machines.

use crate::meant::{Meant, meant_by};
use crate::parts::parts_of;
use command_line::{Given, GivenPlaces};
use faults::{Fault, file_name};
use feed_names::open_names;
use feed_texts::{FaultText, GivenText, NamedStop, fault_text_json};
use file_places::{Part, text_of};
use gtfs_text::Sheet;
use pattern_query::Refusal;
use questions::Question;
use std::alloc::{AllocError, Global};
use std::format;
use stop_search::StopRow;

// The name of the feed's file that is at fault.
fn file_of(fault: &Fault<'_>) -> Option<&'static str> {
    match fault {
        Fault::Feed(fault) => Some(file_name(fault.file)),
        _ => None,
    }
}

// The row of the feed's file that is at fault.
fn row_of(fault: &Fault<'_>) -> Option<usize> {
    match fault {
        Fault::Feed(fault) => Some(fault.row),
        _ => None,
    }
}

// The id that a fault is about.
fn id_of<'a>(fault: &Fault<'a>) -> Option<&'a str> {
    match fault {
        Fault::Question(Refusal::UnknownStop(id) | Refusal::NotStored(id)) => Some(id),
        _ => None,
    }
}

// Which place of a question an unknown id is: the first place is looked at first.
fn end_of(places: &GivenPlaces<'_>, id: &str) -> Option<&'static str> {
    if places.from == id {
        Some("from")
    } else if places.to == id {
        Some("to")
    } else {
        None
    }
}

// Which place of the question a fault is about. Only a tree of the first place may be missing.
fn end_meant(places: &Option<GivenPlaces<'_>>, fault: &Fault<'_>) -> Option<&'static str> {
    match (places, fault) {
        (Some(places), Fault::Question(Refusal::UnknownStop(id))) => end_of(places, id),
        (Some(_), Fault::Question(Refusal::NotStored(_))) => Some("from"),
        _ => None,
    }
}

/// A fault of no file and no id that is shown so, with its status, as an object of JSON. The object stands on one line, without a line's
/// end. It fails only if memory runs out.
pub fn named_fault_json(alloc: Global, shown: &str, status: u8) -> Result<String, AllocError> {
    fault_text_json(alloc, &text_of(shown, status))
}

// The places of a question, if one was asked.
fn places_of<'a>(question: &Option<Question<'a>>) -> Option<GivenPlaces<'a>> {
    match question {
        Some(question) => Some(GivenPlaces {
            from: question.from,
            to: question.to,
        }),
        None => None,
    }
}

// The fault of a question, which is shown so.
fn question_json(
    alloc: Global,
    question: &Option<Question<'_>>,
    fault: &Fault<'_>,
    shown: &str,
) -> Result<String, AllocError> {
    let told = FaultText {
        id: id_of(fault),
        end: end_meant(&places_of(question), fault),
        ..text_of(shown, fault.status())
    };
    fault_text_json(alloc, &told)
}

/// The fault of a question that was asked in a line, as an object of JSON, without what else may be meant by an id. The object stands
/// on one line, without a line's end. It fails only if memory runs out.
pub fn question_fault_json(
    alloc: Global,
    question: &Option<Question<'_>>,
    fault: &Fault<'_>,
) -> Result<String, AllocError> {
    let shown = format!(in alloc; "{fault}")?;
    question_json(alloc, question, fault, shown.as_str())
}

// A stop as JSON has it.
fn named_stop<'s>(stop: &StopRow<'s>) -> NamedStop<'s> {
    NamedStop {
        id: stop.id,
        name: stop.name,
    }
}

// A fault with the stops of the station that has its id, or else with those that are near the id.
fn stops_json<'n>(
    alloc: Global,
    told: &FaultText<'_>,
    of_station: bool,
    named: &'n [NamedStop<'n>],
) -> Result<String, AllocError> {
    let named_told = FaultText {
        near: if of_station { None } else { Some(named) },
        stops: if of_station { Some(named) } else { None },
        ..*told
    };
    fault_text_json(alloc, &named_told)
}

// A fault with the stops that may be meant by its id.
fn meant_json(
    alloc: Global,
    told: &FaultText<'_>,
    meant: &Meant<'_>,
) -> Result<String, AllocError> {
    let named: Vec<NamedStop<'_>> = meant.stops.iter().map(named_stop).collect(alloc)?;
    stops_json(alloc, told, meant.of_station, named.as_slice())
}

// A fault of an unknown id, with the stops of the sheet that may be meant by it.
fn sheet_json(
    alloc: Global,
    sheet: &Option<Sheet>,
    id: &str,
    told: &FaultText<'_>,
) -> Result<String, AllocError> {
    match sheet {
        Some(sheet) => {
            let meant = meant_by(alloc, sheet, id)?;
            meant_json(alloc, told, &meant)
        }
        None => fault_text_json(alloc, told),
    }
}

// An unknown id in a folder: with the stops of the station that has it, or else with what is near it.
fn unknown_json(
    rt: &HostRuntime,
    alloc: Global,
    folder: &str,
    id: &str,
    told: &FaultText<'_>,
) -> Result<String, AllocError> {
    let sheet = open_names(rt, alloc, folder, "stops.txt")?;
    sheet_json(alloc, &sheet, id, told)
}

// A fault as JSON, with what may be meant by an unknown id.
fn told_json(
    rt: &HostRuntime,
    alloc: Global,
    feed: Option<&str>,
    fault: &Fault<'_>,
    told: &FaultText<'_>,
) -> Result<String, AllocError> {
    match (fault, feed) {
        (Fault::Question(Refusal::UnknownStop(id)), Some(folder)) => {
            unknown_json(rt, alloc, folder, id, told)
        }
        _ => fault_text_json(alloc, told),
    }
}

// A fault that is shown so, with what stands at its place.
fn given_json(
    rt: &HostRuntime,
    alloc: Global,
    given: &Given<'_>,
    fault: &Fault<'_>,
    texts: &[GivenText<'_>],
    shown: &str,
) -> Result<String, AllocError> {
    let told = FaultText {
        file: file_of(fault),
        row: row_of(fault),
        id: id_of(fault),
        end: end_meant(&given.places, fault),
        given: texts,
        ..text_of(shown, fault.status())
    };
    told_json(rt, alloc, given.feed, fault, &told)
}

// A fault with these parts at its place.
fn parts_json(
    rt: &HostRuntime,
    alloc: Global,
    given: &Given<'_>,
    fault: &Fault<'_>,
    parts: &[Part],
) -> Result<String, AllocError> {
    let shown = format!(in alloc; "{fault}")?;
    let texts: Vec<GivenText<'_>> = parts.iter().map(Part::given).collect(alloc)?;
    given_json(rt, alloc, given, fault, texts.as_slice(), shown.as_str())
}

/// A fault as an object of JSON, by what the words say, on one line, without a line's end. It fails only if memory runs out.
pub fn fault_json(
    rt: &HostRuntime,
    alloc: Global,
    given: &Given<'_>,
    fault: &Fault<'_>,
) -> Result<String, AllocError> {
    let parts = parts_of(rt, alloc, given, fault)?;
    parts_json(rt, alloc, given, fault, parts.as_slice())
}
