//! The events of a stop.

ghost use Rattle.std.specs.Prelude.{◌≡◌, ℕ, ◌<◌, ◌≤◌, ◌⊎◌, length, slice_get, Some, IfOk, OnOk, IsSomeAnd, IsTrue};
ghost use Rattle.timetable.specs.Table.{IsTable, stops_of};
ghost use Rattle.timetable.specs.Journeys.{foot, from};
ghost use Rattle.lines.specs.Lines.{AreLines, IsLine};
ghost use Rattle.lines.specs.declared.line.Halt.{Halt as HaltData};
ghost use Rattle.stop_events.specs.Events.{IsAt, AreEvents, Gathered};

use lines::{Halt, Line, Lines};
use std::alloc::{AllocError, Global};
use timetable::{StopId, Timetable};

// The last position where one may alight; 0 if there is none.
fn last_alighting(halts: &[Halt]) -> usize
    ensures within { result ≤ length halts.now }
    ensures alights { (result ≡ 0) ⊎ IsSomeAnd (slice_get halts.now result) (λ h. IsTrue h.alight) }
    ensures last { (position : ℕ) → IsSomeAnd (slice_get halts.now position) (λ h. IsTrue h.alight) → position ≤ result }
{
    let mut last = 0;
    for (position, halt) in halts.iter().enumerate() {
        if halt.alight {
            last = position;
        }
    }
    last
}

// Adds the moments to leave a stop at for the rides of a line's instances that board at a position, `seconds` seconds away on foot.
fn gather(
    table: &Timetable,
    line: &Line,
    position: usize,
    seconds: u32,
    moments: &mut Vec<u32>,
) -> Result<(), AllocError>
    requires valid { IsTable table.now }
    requires line { IsLine table.now line.now }
    requires position { position < length line.now.halts }
    ensures { OnOk result ((s : ℕ) (halt : HaltData) → slice_get line.now.halts position ≡ Some halt
        → foot table.now s halt.stop ≡ Some seconds
        → Gathered table.now s (IsAt line.now position) moments.old.items moments.new.items) }
{
    let halts = line.halts();
    if halts[position].board && position < last_alighting(halts) {
        for times in line.times_at(position) {
            if seconds <= times.departure {
                moments.push(times.departure - seconds)?;
            }
        }
    }
    Ok(())
}

// Adds the moments to leave a stop at for the rides that board at one, `seconds` seconds away on foot.
fn gather_at(
    table: &Timetable,
    lines: &Lines,
    stop: StopId,
    seconds: u32,
    moments: &mut Vec<u32>,
) -> Result<(), AllocError>
    requires valid { IsTable table.now }
    requires lines { AreLines table.now lines.now }
    ensures { OnOk result ((s : ℕ) → foot table.now s stop ≡ Some seconds
        → Gathered table.now s (λ leg. from table.now leg ≡ stop) moments.old.items moments.new.items) }
{
    for at in lines.positions_at(stop) {
        let line = lines.line(at.line as usize);
        gather(table, line, at.position as usize, seconds, moments)?;
    }
    Ok(())
}

/// The events of a stop, strictly rising: the moments, of 0 or later, at which one can leave it and be just in time for a ride. The ride
/// boards at the stop, or at a stop to which one walks. Between two of the events the journeys of one ride or more stay the same
/// (`laws::between_events`). It looks at the lines that call at these stops. It fails only if memory runs out.
pub fn departures(
    alloc: Global,
    table: &Timetable,
    lines: &Lines,
    source: StopId,
) -> Result<Vec<u32>, AllocError>
    requires source { source < stops_of table.now }
    requires lines { AreLines table.now lines.now }
    ensures { IfOk result (λ moments. AreEvents table.now source moments.items) }
{
    let walks = table.walks_from(source);
    let mut moments = Vec::new(alloc);
    gather_at(table, lines, source, 0, &mut moments)?;
    for walk in walks {
        gather_at(table, lines, walk.to, walk.seconds, &mut moments)?;
    }
    moments.sort_unstable();
    moments.dedup();
    Ok(moments)
}
