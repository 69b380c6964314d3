//! The rows of many stops to leave from.

ghost use Rattle.std.specs.Prelude.{◌<◌, IfOk};
ghost use Rattle.std.specs.Arc.{arc_value};
ghost use Rattle.std.specs.List.{All};
ghost use Rattle.lines.specs.Lines.{AreLines};
ghost use Rattle.timetable.specs.Table.{stops_of};
ghost use Rattle.travel_matrix.specs.Parts.{AreJoined, IsPart};
ghost use Rattle.travel_matrix.specs.Rows.{AreRows};

use crate::crew::Crew;
use crate::row::{Row, row_of};
use crate::window::Window;
use reaching::travel_times;
use rounds::Scratch;
use std::alloc::{AllocError, Global};
use std::sync::Arc;
use std::thread;
use std::thread::Threads;
use timetable::StopId;

// The rows of some stops, one after the other, with one scratch for all of them. It fails only if memory runs out.
fn rows_in_turn(
    alloc: Global,
    window: &Window<'_>,
    goals: &[StopId],
    origins: &[StopId],
) -> Result<Vec<Row>, AllocError>
    requires lines { AreLines window.now.table.now (arc_value window.now.lines) }
    requires known { All (λ s. s < stops_of window.now.table.now) origins.now }
    ensures { IsPart window.now.table.now window.now.rides window.now.first window.now.last goals.now origins.now result }
{
    let mut scratch = Scratch::over(
        alloc,
        window.table,
        Arc::try_clone(&window.lines)?,
        window.rides,
    )?;
    let mut rows = Vec::with_capacity(alloc, origins.len())?;
    for origin in origins {
        let list = travel_times(
            alloc,
            window.table,
            &mut scratch,
            *origin,
            window.first,
            window.last,
        )?;
        rows.push(row_of(alloc, goals, &list)?)?;
    }
    Ok(rows)
}

// The rows of all parts, in order. It fails if those of one part are none, or memory runs out.
fn joined(alloc: Global, parts: Vec<Result<Vec<Row>, AllocError>>) -> Result<Vec<Row>, AllocError>
    ensures { IfOk result (λ rows. AreJoined parts.items rows.items) }
{
    let mut rows = Vec::new(alloc);
    for part in parts {
        let mut part = part?;
        rows.append(&mut part)?;
    }
    Ok(rows)
}

/// The rows of the stops to leave from, in their order: how long one is on the way to each of the stops to go to. Each worker of the crew
/// takes a part of them, of which no two differ in size by more than the last one. It fails only if memory runs out.
pub fn rows_of<R: Threads + Sync>(
    crew: &Crew<'_, R>,
    window: &Window<'_>,
    goals: &[StopId],
    origins: &[StopId],
) -> Result<Vec<Row>, AllocError>
    requires lines { AreLines window.now.table.now (arc_value window.now.lines) }
    requires known { All (λ s. s < stops_of window.now.table.now) origins.now }
    ensures { IfOk result
        (λ rows. AreRows window.now.table.now window.now.rides window.now.first window.now.last goals.now origins.now rows.items) }
{
    if origins.is_empty() {
        return Ok(Vec::new(crew.alloc));
    }
    let alloc = crew.alloc;
    let size = origins.len().div_ceil(usize::from(crew.workers));
    let part = |_start: usize, part: &[StopId]| -> Result<Vec<Row>, AllocError>
        requires { AreLines window.now.table.now (arc_value window.now.lines) × All (λ s. s < stops_of window.now.table.now) part.now }
        ensures { IsPart window.entry.now.table.now window.entry.now.rides window.entry.now.first window.entry.now.last
            goals.entry.now part.entry.now result }
    { rows_in_turn(alloc, window, goals, part) };
    let parts = thread::map_chunks(crew.rt, alloc, origins, size, &part)?;
    joined(alloc, parts)
}
