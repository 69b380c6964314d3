//! What stands at the place of a fault.

use command_line::{Given, Word};
use faults::Fault;
use file_places::{Part, add_of_feed};
use service_days::DayFault;
use std::alloc::{AllocError, Global};
use std::format;

// Adds a part with its text.
fn add_given(
    alloc: Global,
    name: &str,
    text: &str,
    parts: &mut Vec<Part>,
) -> Result<(), AllocError> {
    parts.push(Part::new(alloc, name, text)?)?;
    Ok(())
}

// Adds the option whose word is at fault.
fn add_word(alloc: Global, word: &Word<'_>, parts: &mut Vec<Part>) -> Result<(), AllocError> {
    let option = format!(in alloc; "--{}", word.option)?;
    add_given(alloc, option.as_str(), word.text, parts)
}

// Adds what a fault is about, if it is known.
fn add_of_fault(
    rt: &HostRuntime,
    alloc: Global,
    given: &Given<'_>,
    fault: &Fault<'_>,
    parts: &mut Vec<Part>,
) -> Result<(), AllocError> {
    match fault {
        Fault::BadDate | Fault::BadTime => match &given.word {
            Some(word) => add_word(alloc, word, parts),
            None => Ok(()),
        },
        Fault::Days(DayFault::BadZone) => match given.zone {
            Some(zone) => add_given(alloc, "--zone", zone, parts),
            None => Ok(()),
        },
        Fault::Feed(fault) => match given.feed {
            Some(folder) => add_of_feed(rt, alloc, folder, fault, parts),
            None => Ok(()),
        },
        _ => Ok(()),
    }
}

/// The options or columns that a fault is about, with their texts: either all have one, or none. None are there if nothing is known. It
/// fails only if memory runs out.
pub(crate) fn parts_of(
    rt: &HostRuntime,
    alloc: Global,
    given: &Given<'_>,
    fault: &Fault<'_>,
) -> Result<Vec<Part>, AllocError> {
    let mut parts = Vec::new(alloc);
    add_of_fault(rt, alloc, given, fault, &mut parts)?;
    Ok(parts)
}
