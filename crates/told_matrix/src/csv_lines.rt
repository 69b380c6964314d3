//! The lines of a table, as CSV.

ghost use Rattle.std.specs.Prelude.{◌≡◌, IfOk, OnOk, length, string_bytes};
ghost use Rattle.std.specs.Global.{Vec as VecData};
ghost use Rattle.std.specs.List.{All};
ghost use Rattle.told_matrix.specs.Lines.{greatest_of, least_of, line_text, lines_from, lines_of, median_of, seconds_text};
ghost use Rattle.told_matrix.specs.Writers.{Adds, IsReady, HasLength};

use crate::place::Place;
use csv::{Terminator, Writer, WriterBuilder};
use reaching::TravelTimes;
use std::alloc::{AllocError, Global};
use std::format;
use std::io::Write;
use travel_matrix::Row;

// The least number of seconds; none if one doesn't get there.
fn least_of(cell: &Option<TravelTimes>) -> Option<u32>
    ensures { result ≡ least_of cell.now }
{
    match cell {
        Some(times) => Some(times.least),
        None => None,
    }
}

// The median; none if one gets there at fewer seconds than half of them.
fn median_of(cell: &Option<TravelTimes>) -> Option<u32>
    ensures { result ≡ median_of cell.now }
{
    match cell {
        Some(times) => times.median,
        None => None,
    }
}

// The greatest number of seconds; none if one doesn't get there at some second.
fn greatest_of(cell: &Option<TravelTimes>) -> Option<u32>
    ensures { result ≡ greatest_of cell.now }
{
    match cell {
        Some(times) => times.greatest,
        None => None,
    }
}

// A number of seconds as it is printed: nothing if there is none.
fn seconds_text(alloc: Global, seconds: Option<u32>) -> Result<String, AllocError>
    ensures { IfOk result (λ text. string_bytes text ≡ seconds_text seconds) }
{
    match seconds {
        Some(number) => format!(in alloc; "{number}"),
        None => Ok(String::new(alloc)),
    }
}

// Writes the line of two stops. Only memory may be refused to it.
fn put_line<W: Write + Drop>(
    alloc: Global,
    from: &str,
    to: &str,
    cell: &Option<TravelTimes>,
    out: &mut Writer<W>,
) -> Result<(), AllocError>
    requires { IsReady out.old }
    ensures { OnOk result (Adds W.contents (line_text from.now to.now cell.now) out.old out.new) }
{
    let least = seconds_text(alloc, least_of(cell))?;
    let median = seconds_text(alloc, median_of(cell))?;
    let greatest = seconds_text(alloc, greatest_of(cell))?;
    let fields = [
        from.as_bytes(),
        to.as_bytes(),
        least.as_bytes(),
        median.as_bytes(),
        greatest.as_bytes(),
    ];
    match out.write_fields(&fields) {
        Ok(()) => Ok(()),
        Err(_) => Err(AllocError),
    }
}

// Writes the lines of a stop to leave from.
fn put_lines<W: Write + Drop>(
    alloc: Global,
    from: &str,
    goals: &[Place<'_>],
    row: &[Option<TravelTimes>],
    out: &mut Writer<W>,
) -> Result<(), AllocError>
    requires ready { IsReady out.old }
    requires count { length row.now ≡ length goals.now }
    ensures { OnOk result (Adds W.contents (lines_from from.now goals.now row.now) out.old out.new) }
{
    for number in 0..goals.len() {
        put_line(alloc, from, goals[number].id, &row[number], out)?;
    }
    Ok(())
}

// Writes the lines of stops to leave from.
fn put_all<W: Write + Drop>(
    alloc: Global,
    origins: &[Place<'_>],
    goals: &[Place<'_>],
    rows: &[Row],
    out: &mut Writer<W>,
) -> Result<(), AllocError>
    requires ready { IsReady out.old }
    requires count { length rows.now ≡ length origins.now }
    requires each { All (HasLength (length goals.now)) rows.now }
    ensures { OnOk result (Adds W.contents (lines_of origins.now goals.now rows.now) out.old out.new) }
{
    for number in 0..origins.len() {
        put_lines(alloc, origins[number].id, goals, &rows[number], out)?;
    }
    Ok(())
}

/// The lines of the rows of stops to leave from, one for each stop to go to. It fails only if memory runs out.
pub(crate) fn lines_of(
    alloc: Global,
    origins: &[Place<'_>],
    goals: &[Place<'_>],
    rows: &[Row],
) -> Result<Vec<u8>, AllocError>
    requires count { length rows.now ≡ length origins.now }
    requires each { All (HasLength (length goals.now)) rows.now }
    ensures { IfOk result (λ text. text.items ≡ lines_of origins.now goals.now rows.now) }
{
    let mut out = WriterBuilder::new()
        .terminator(Terminator::CRLF)
        .from_writer(Vec::new(alloc));
    put_all(alloc, origins, goals, rows, &mut out)?;
    match out.into_inner() {
        Ok(text) => Ok(text),
        Err(_) => Err(AllocError),
    }
}
