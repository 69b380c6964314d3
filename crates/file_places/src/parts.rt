//! What a file has at the place of a fault.

use crate::reading::{Field, fields_at, missing_columns};
use faults::file_name;
use feed_texts::GivenText;
use gtfs_tables::{FaultKind, FeedFault, FeedFile};
use shown_ids::Shown;
use std::alloc::{AllocError, Global};
use std::fs::File;
use std::io::ErrorKind;
use std::{fmt, format, fs};

/// An option or a column that a fault is about.
#[derive(Drop)]
pub struct Part {
    /// The option with its dashes, or the column.
    pub name: String,
    /// The text that stands there; none for a column that isn't there.
    pub text: Option<String>,
}

impl Part {
    /// A part with its text.
    pub fn new(alloc: Global, name: &str, text: &str) -> Result<Part, AllocError> {
        Ok(Part {
            name: String::from_str(alloc, name)?,
            text: Some(String::from_str(alloc, text)?),
        })
    }

    // The text that stands there, if one does.
    fn text(&self) -> Option<&str> {
        match &self.text {
            Some(text) => Some(text.as_str()),
            None => None,
        }
    }

    /// The part as JSON has it.
    pub fn given(&self) -> GivenText<'_> {
        GivenText {
            name: self.name.as_str(),
            text: self.text(),
        }
    }
}

// A file; none if it can't be opened.
fn opened_at(rt: &HostRuntime, path: &str) -> Result<Option<File>, AllocError> {
    match fs::open(rt, path) {
        Ok(file) => Ok(Some(file)),
        Err(error) => match error.kind() {
            ErrorKind::OutOfMemory => Err(AllocError),
            _ => Ok(None),
        },
    }
}

/// A file of the folder; none if it can't be opened.
pub(crate) fn opened(
    rt: &HostRuntime,
    alloc: Global,
    folder: &str,
    file: FeedFile,
) -> Result<Option<File>, AllocError> {
    let path = format!(in alloc; "{folder}/{}", file_name(file))?;
    opened_at(rt, path.as_str())
}

// Adds columns that aren't there.
fn add_columns(
    alloc: Global,
    columns: &[&'static str],
    parts: &mut Vec<Part>,
) -> Result<(), AllocError> {
    for column in columns {
        parts.push(Part {
            name: String::from_str(alloc, *column)?,
            text: None,
        })?;
    }
    Ok(())
}

/// Adds the columns that a file must have and lacks.
pub(crate) fn add_missing(
    alloc: Global,
    file: File,
    name: FeedFile,
    parts: &mut Vec<Part>,
) -> Result<(), AllocError> {
    let columns = missing_columns(alloc, file, name)?;
    add_columns(alloc, &columns, parts)
}

/// Adds the fields that a fault of a row is about.
pub(crate) fn add_fields(
    alloc: Global,
    fields: Vec<Field>,
    parts: &mut Vec<Part>,
) -> Result<(), AllocError> {
    for field in fields {
        parts.push(Part {
            name: String::from_str(alloc, field.column)?,
            text: Some(field.text),
        })?;
    }
    Ok(())
}

/// Adds what a file of the folder has where a fault of the feed is. The file is read anew. It fails only if memory runs out.
pub fn add_of_feed(
    rt: &HostRuntime,
    alloc: Global,
    folder: &str,
    fault: &FeedFault,
    parts: &mut Vec<Part>,
) -> Result<(), AllocError> {
    if let FaultKind::MissingFile | FaultKind::ReadFailed = fault.kind {
        return Ok(());
    }
    match opened(rt, alloc, folder, fault.file)? {
        Some(file) if fault.kind == FaultKind::MissingColumn => {
            add_missing(alloc, file, fault.file, parts)
        }
        Some(file) => add_fields(alloc, fields_at(alloc, file, fault)?, parts),
        None => Ok(()),
    }
}

/// The line of what stands at the place of a fault; nothing if there is no part.
#[derive(Clone, Copy)]
pub struct PartsLine<'p>(pub &'p [Part]);

// Writes a part after others, if there are some.
fn write_part<W: fmt::Write>(f: &mut fmt::Formatter<W>, part: &Part, first: bool) -> fmt::Result {
    match &part.text {
        Some(text) => {
            let before = if first { "given: " } else { ", " };
            write!(f, "{before}{} \"{}\"", part.name, Shown(text.as_str()))
        }
        None => {
            let before = if first { "no column: " } else { ", " };
            write!(f, "{before}{}", part.name)
        }
    }
}

impl fmt::Display for PartsLine<'_> {
    fn fmt<W: fmt::Write>(&self, f: &mut fmt::Formatter<W>) -> fmt::Result {
        let mut first = true;
        for part in self.0 {
            write_part(f, part, first)?;
            first = false;
        }
        if first {
            return Ok(());
        }
        writeln!(f)
    }
}
