//! What a feed's files have where each of its faults is.

use crate::folder::folder_hint;
use crate::parts::{Part, PartsLine, add_fields, add_missing, opened};
use crate::reading::{Field, fields_of_all};
use crate::shown::text_of;
use faults::{Fault, file_name};
use feed_texts::{FaultListWriter, FaultText, GivenText};
use file_faults::FaultList;
use gtfs_tables::{FaultKind, FeedFault};
use std::alloc::{AllocError, Global};
use std::format;
use std::fs::File;

/// The parts that each fault of a feed is about, by its place among them, and a line to add to the first one.
#[derive(Drop)]
pub struct FaultParts {
    parts: Vec<Vec<Part>>,
    note: String,
}

// The parts that a fault of a row is about.
fn parts_of_fields(alloc: Global, fields: Vec<Field>) -> Result<Vec<Part>, AllocError> {
    let mut parts = Vec::new(alloc);
    add_fields(alloc, fields, &mut parts)?;
    Ok(parts)
}

// Adds the parts of faults of one file, each of a row.
fn add_rows(
    alloc: Global,
    file: File,
    faults: &[FeedFault],
    all: &mut Vec<Vec<Part>>,
) -> Result<(), AllocError> {
    for fields in fields_of_all(alloc, file, faults)? {
        all.push(parts_of_fields(alloc, fields)?)?;
    }
    Ok(())
}

// Adds the parts of the one fault of a file that lacks columns.
fn add_columns(
    alloc: Global,
    file: File,
    fault: &FeedFault,
    all: &mut Vec<Vec<Part>>,
) -> Result<(), AllocError> {
    let mut parts = Vec::new(alloc);
    add_missing(alloc, file, fault.file, &mut parts)?;
    all.push(parts)?;
    Ok(())
}

// Adds no part for each of these faults.
fn add_none(
    alloc: Global,
    faults: &[FeedFault],
    all: &mut Vec<Vec<Part>>,
) -> Result<(), AllocError> {
    for _ in faults {
        all.push(Vec::new(alloc))?;
    }
    Ok(())
}

// Adds the parts of all faults of one file, which is read once.
fn add_file(
    rt: &HostRuntime,
    alloc: Global,
    folder: &str,
    faults: &[FeedFault],
    all: &mut Vec<Vec<Part>>,
) -> Result<(), AllocError> {
    let Some(first) = faults.first() else {
        return Ok(());
    };
    if let FaultKind::MissingFile | FaultKind::ReadFailed = first.kind {
        return add_none(alloc, faults, all);
    }
    match opened(rt, alloc, folder, first.file)? {
        Some(file) if first.kind == FaultKind::MissingColumn => {
            add_columns(alloc, file, first, all)
        }
        Some(file) => add_rows(alloc, file, faults, all),
        None => add_none(alloc, faults, all),
    }
}

// The line of a folder that isn't there, if the first fault is that of a file that isn't.
fn note_of(
    rt: &HostRuntime,
    alloc: Global,
    folder: &str,
    faults: &[FeedFault],
) -> Result<String, AllocError> {
    match faults.first() {
        Some(fault)
            if fault.kind == FaultKind::MissingFile || fault.kind == FaultKind::ReadFailed => {
            folder_hint(rt, alloc, folder)
        }
        _ => Ok(String::new(alloc)),
    }
}

/// The parts that each of these faults is about. Faults of one file stand together, so each file is read once. It fails only if memory runs
/// out.
pub fn parts_of_all(
    rt: &HostRuntime,
    alloc: Global,
    folder: &str,
    faults: &[FeedFault],
) -> Result<FaultParts, AllocError> {
    let mut parts = Vec::new(alloc);
    for of_file in faults.chunk_by(|a, b| a.file == b.file) {
        add_file(rt, alloc, folder, of_file, &mut parts)?;
    }
    Ok(FaultParts {
        parts,
        note: note_of(rt, alloc, folder, faults)?,
    })
}

/// The lines that are added to those of the fault at a place: none if there is nothing to add. It fails only if memory runs out.
pub fn hint_at(alloc: Global, places: &FaultParts, at: usize) -> Result<String, AllocError> {
    let note = if at == 0 { places.note.as_str() } else { "" };
    match places.parts.get(at) {
        Some(parts) => format!(in alloc; "{}{note}", PartsLine(parts.as_slice())),
        None => String::from_str(alloc, note),
    }
}

// Writes a fault that is shown so, with what is given at its place.
fn write_shown(
    out: &mut FaultListWriter,
    fault: &FeedFault,
    status: u8,
    given: &[GivenText<'_>],
    shown: &str,
) {
    out.fault(&FaultText {
        file: Some(file_name(fault.file)),
        row: Some(fault.row),
        given,
        ..text_of(shown, status)
    });
}

// Writes a fault, with what is given at its place.
fn write_given(
    alloc: Global,
    out: &mut FaultListWriter,
    fault: &FeedFault,
    given: &[GivenText<'_>],
) -> Result<(), AllocError> {
    let told = Fault::Feed(*fault);
    let shown = format!(in alloc; "{told}")?;
    write_shown(out, fault, told.status(), given, shown.as_str());
    Ok(())
}

// Writes a fault, with what stands at its place.
fn write_fault(
    alloc: Global,
    out: &mut FaultListWriter,
    fault: &FeedFault,
    parts: &[Part],
) -> Result<(), AllocError> {
    let given: Vec<GivenText<'_>> = parts.iter().map(Part::given).collect(alloc)?;
    write_given(alloc, out, fault, given.as_slice())
}

// Writes faults, each with what stands at its place.
fn write_faults(
    alloc: Global,
    out: &mut FaultListWriter,
    faults: &[FeedFault],
    places: &[Vec<Part>],
) -> Result<(), AllocError> {
    for (at, fault) in faults.iter().enumerate() {
        let parts = match places.get(at) {
            Some(parts) => parts.as_slice(),
            None => &[],
        };
        write_fault(alloc, out, fault, parts)?;
    }
    Ok(())
}

// The object of the faults at these places.
fn places_json(
    alloc: Global,
    list: &FaultList,
    places: &[Vec<Part>],
) -> Result<String, AllocError> {
    let mut out = FaultListWriter::new(alloc, "check");
    write_faults(alloc, &mut out, &list.faults, places)?;
    out.into_text(list.more)
}

/// The faults of a feed as an object of JSON, each with what stands at its place, on one line, without a line's end. It fails only if
/// memory runs out.
pub fn list_json(
    rt: &HostRuntime,
    alloc: Global,
    folder: &str,
    list: &FaultList,
) -> Result<String, AllocError> {
    let places = parts_of_all(rt, alloc, folder, &list.faults)?;
    places_json(alloc, list, &places.parts)
}
