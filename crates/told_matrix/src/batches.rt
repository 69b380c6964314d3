//! Printing a table, in batches of rows that are worked out at once.

ghost use Rattle.std.specs.Prelude.{◌≡◌, ◌<◌, Err, IfOk, OnOk, map};
ghost use Rattle.std.specs.Arc.{arc_value};
ghost use Rattle.std.specs.List.{All};
ghost use Rattle.lines.specs.Lines.{AreLines as AreLinesOf};
ghost use Rattle.timetable.specs.Table.{stops_of as count_of};
ghost use Rattle.told_matrix.specs.Batches.{HasLines, HasLinesCut, IsLinesBroken, IsLinesCut};
ghost use Rattle.told_matrix.specs.Tables.{HasTable, IsBrokenOff, IsCutOff};

use crate::asking::Matrix;
use crate::csv_lines::lines_of;
use crate::place::{Place, stops_of};
use feed_basis::Basis;
use lines::Lines;
use progress::{Done, Progress};
use std::alloc::{AllocError, Global};
use std::io::Write;
use std::sync::Arc;
use std::thread::Threads;
use streams::{PrintFault, Refused, Stream};
use timetable::{Rides, StopId, Timetable};
use travel_matrix::{Crew, Window, rows_of};

/// The first line of a table: the names of its columns.
pub const HEADER: &[u8] = b"from_id,to_id,least,median,greatest\r\n";

// How many cells a worker works out in a batch, if a row has fewer.
const CELLS: usize = 65_536;

// How many rows a worker works out in a batch at most.
const SHARE: usize = 16;

// How many rows of `cells` cells are worked out at once.
fn batch_size(workers: u8, cells: usize) -> usize
    requires { 0 < workers }
    ensures { 0 < result }
{
    let share = (CELLS / cells.max(1)).clamp(1, SHARE);
    usize::from(workers) * share
}

// Works out the rows of a batch of stops to leave from, and prints their lines. `stops` are those to go to.
fn print_batch<T: Threads + Sync, O: Write + Drop>(
    crew: &Crew<'_, T>,
    window: &Window<'_>,
    batch: &[Place<'_>],
    goals: &[Place<'_>],
    stops: &[StopId],
    out: &mut Stream<O>,
) -> Result<(), PrintFault>
    requires lines { AreLinesOf window.now.table.now (arc_value window.now.lines) }
    requires known { All (λ place. place.stop < count_of window.now.table.now) batch.now }
    requires same { stops.now ≡ map (λ place. place.stop) goals.now }
    ensures whole { OnOk result (HasLines window.now batch.now goals.now out.old out.new) }
    ensures refused { result ≡ Err PrintFault.Refused → HasLinesCut window.now batch.now goals.now out.old out.new }
    ensures memory { result ≡ Err PrintFault.Memory → out.new ≡ out.old }
{
    let origins = stops_of(crew.alloc, batch)?;
    let rows = rows_of(crew, window, stops, &origins)?;
    let text = lines_of(crew.alloc, batch, goals, &rows)?;
    match out.print_bytes(&text) {
        Ok(()) => Ok(()),
        Err(Refused) => Err(PrintFault::Refused),
    }
}

// Prints the lines of all stops to leave from, batch by batch.
fn print_batches<T: Threads + Sync, O: Write + Drop, P: Progress>(
    crew: &Crew<'_, T>,
    window: &Window<'_>,
    origins: &[Place<'_>],
    goals: &[Place<'_>],
    out: &mut Stream<O>,
    progress: &mut P,
) -> Result<(), PrintFault>
    requires lines { AreLinesOf window.now.table.now (arc_value window.now.lines) }
    requires known { All (λ place. place.stop < count_of window.now.table.now) origins.now }
    ensures whole { OnOk result (HasLines window.now origins.now goals.now out.old out.new) }
    ensures refused { result ≡ Err PrintFault.Refused → IsLinesCut window.now origins.now goals.now out.old out.new }
    ensures memory { result ≡ Err PrintFault.Memory → IsLinesBroken window.now origins.now goals.now out.old out.new }
{
    let stops = stops_of(crew.alloc, goals)?;
    let size = batch_size(crew.workers, goals.len());
    let mut done = 0;
    progress.reached(Done::Printed, 0, origins.len());
    'batches: while done < origins.len() {
        let end = origins.len().min(done.saturating_add(size));
        print_batch(crew, window, &origins[done..end], goals, &stops, out)?;
        done = end;
        progress.reached(Done::Printed, done, origins.len());
    }
    Ok(())
}

// The lines of the timetable, to be shared. It fails only if memory runs out.
fn lines_over(alloc: Global, table: &Timetable) -> Result<Arc<Lines>, AllocError>
    ensures { IfOk result (λ lines. AreLinesOf table.now (arc_value lines)) }
{
    let lines = Lines::of(alloc, table)?;
    Ok(Arc::new(alloc, lines)?)
}

/// Prints a table: the names of its columns, and a line for each stop to leave from and each stop to go to, in their order. A line has how
/// long one is on the way over the seconds of the window, with at most `rides` rides. The rows are worked out in the crew's threads, and
/// printed as they come, so memory is taken only for those that are worked out at once. It reports to `progress` how many are printed.
///
/// It fails if the stream refuses a write, or if memory runs out. The lines of the first stops to leave from stand there then.
pub fn print_matrix<T: Threads + Sync, O: Write + Drop, P: Progress>(
    crew: &Crew<'_, T>,
    basis: &Basis,
    rides: Rides,
    matrix: &Matrix<'_>,
    out: &mut Stream<O>,
    progress: &mut P,
) -> Result<(), PrintFault>
    requires known { All (λ place. place.stop < count_of basis.now.timetable) matrix.now.origins.items }
    ensures whole { OnOk result (HasTable basis.now.timetable rides matrix.now out.old out.new) }
    ensures refused { result ≡ Err PrintFault.Refused → IsCutOff basis.now.timetable rides matrix.now out.old out.new }
    ensures memory { result ≡ Err PrintFault.Memory → IsBrokenOff basis.now.timetable rides matrix.now out.old out.new }
{
    let Ok(()) = out.print_bytes(HEADER) else {
        return Err(PrintFault::Refused);
    };
    let table = basis.timetable();
    let window = Window {
        table,
        lines: lines_over(crew.alloc, table)?,
        rides,
        first: matrix.first,
        last: matrix.last,
    };
    let printed = print_batches(crew, &window, &matrix.origins, &matrix.goals, out, progress);
    progress.ended();
    printed
}
