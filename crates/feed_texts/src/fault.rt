//! Faults for machines.

use json_writer::JsonWriter;
use std::alloc::{AllocError, Global};

/// What stands at the place of a fault.
#[derive(Clone, Copy)]
pub struct GivenText<'a> {
    /// An option with its dashes, or a column of a file.
    pub name: &'a str,
    /// None for a column that isn't there.
    pub text: Option<&'a str>,
}

/// A stop or a station that a fault names.
#[derive(Clone, Copy)]
pub struct NamedStop<'a> {
    pub id: &'a str,
    /// Empty if the feed has none.
    pub name: &'a str,
}

/// A fault, as it is reported to machines.
#[derive(Clone, Copy)]
pub struct FaultText<'a> {
    /// As `F3`; none if the fault has no code.
    pub code: Option<&'a str>,
    /// As `BadField`.
    pub name: &'a str,
    /// The feed's file that is at fault.
    pub file: Option<&'a str>,
    /// Its row, from 1 after the header; 0 for the header or the whole file.
    pub row: Option<usize>,
    /// The id that the fault is about.
    pub id: Option<&'a str>,
    /// The status that the program ends with.
    pub status: u8,
    /// Which place of the question the id is: `from` or `to`.
    pub end: Option<&'a str>,
    /// What stands at the place of the fault.
    pub given: &'a [GivenText<'a>],
    /// Stops and stations that may be meant by the id, if they were looked for.
    pub near: Option<&'a [NamedStop<'a>]>,
    /// The stops of the station that has the id, if one has it.
    pub stops: Option<&'a [NamedStop<'a>]>,
}

// Writes what stands at the place of a fault.
fn write_given(out: &mut JsonWriter, given: &[GivenText<'_>]) {
    out.begin_list();
    for each in given {
        out.begin_object();
        out.member("name", &each.name);
        out.member("text", &each.text);
        out.end_object();
    }
    out.end_list();
}

// Writes stops and stations, if there are any to report.
fn write_stops(out: &mut JsonWriter, stops: &Option<&[NamedStop<'_>]>) {
    let Some(stops) = stops else {
        out.null();
        return;
    };
    out.begin_list();
    for stop in *stops {
        let name = if stop.name.is_empty() {
            None
        } else {
            Some(stop.name)
        };
        out.begin_object();
        out.member("id", &stop.id);
        out.member("name", &name);
        out.end_object();
    }
    out.end_list();
}

// Writes the members of a fault.
fn write_members(out: &mut JsonWriter, fault: &FaultText<'_>) {
    out.member("code", &fault.code);
    out.member("name", &fault.name);
    out.member("file", &fault.file);
    out.member("row", &fault.row);
    out.member("id", &fault.id);
    out.member("status", &fault.status);
    out.member("end", &fault.end);
    out.name("given");
    write_given(out, fault.given);
    out.name("near");
    write_stops(out, &fault.near);
    out.name("stops");
    write_stops(out, &fault.stops);
}

// Writes a fault.
fn write_object(out: &mut JsonWriter, fault: &FaultText<'_>) {
    out.begin_object();
    write_members(out, fault);
    out.end_object();
}

// Writes a fault under its name.
fn write_fault(out: &mut JsonWriter, fault: &FaultText<'_>) {
    out.begin_object();
    out.name("fault");
    write_object(out, fault);
    out.end_object();
}

/// Faults of a feed, written one after the other as an object of JSON.
#[derive(Drop)]
pub struct FaultListWriter {
    out: JsonWriter,
}

impl FaultListWriter {
    /// A list without a fault, for the command of that name.
    pub fn new(alloc: Global, command: &str) -> FaultListWriter {
        let mut out = JsonWriter::new(alloc);
        out.begin_object();
        out.member("command", &command);
        out.name("faults");
        out.begin_list();
        FaultListWriter { out }
    }

    /// Writes the next fault.
    pub fn fault(&mut self, fault: &FaultText<'_>) {
        write_object(&mut self.out, fault);
    }

    /// The object, on one line, without a line's end. There are `more` faults that weren't written. It fails only if memory ran out.
    pub fn into_text(self, more: usize) -> Result<String, AllocError> {
        let mut out = self.out;
        out.end_list();
        out.member("more", &more);
        out.end_object();
        out.into_text()
    }
}

/// A fault as an object of JSON, on one line, without a line's end. It fails only if memory runs out.
pub fn fault_text_json(alloc: Global, fault: &FaultText<'_>) -> Result<String, AllocError> {
    let mut out = JsonWriter::new(alloc);
    write_fault(&mut out, fault);
    out.into_text()
}
