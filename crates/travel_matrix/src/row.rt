//! The row of a stop to leave from.

ghost use Rattle.std.specs.Prelude.{◌<◌, ◌≤◌, IfOk, length};
ghost use Rattle.std.specs.List.{AllPairs, AllWithin, AllZip};
ghost use Rattle.travel_matrix.specs.Rows.{IsCell};

use reaching::TravelTimes;
use std::alloc::{AllocError, Global};
use timetable::StopId;

/// How long one is on the way from a stop to each of some stops, in their order. None: at no second of the window one gets there.
pub type Row = Vec<Option<TravelTimes>>;

// How many of the times, by stops, are to stops before this one.
fn count_before(list: &[TravelTimes], goal: StopId) -> usize
    requires { AllPairs (λ a b. a.stop < b.stop) list.now }
    ensures bound { result ≤ length list.now }
    ensures before { AllWithin (λ times. times.stop < goal) list.now 0 result }
    ensures others { AllWithin (λ times. goal ≤ times.stop) list.now result (length list.now) }
{
    list.partition_point(|times| times.stop.number() < goal.number())
}

// The travel times to the stop, of a list by stops.
fn cell_of(list: &[TravelTimes], goal: StopId) -> Option<TravelTimes>
    requires { AllPairs (λ a b. a.stop < b.stop) list.now }
    ensures { IsCell list.now goal result }
{
    let times = list.get(count_before(list, goal))?;
    if times.stop.number() == goal.number() {
        Some(*times)
    } else {
        None
    }
}

/// The row to these stops, of a list by stops. It fails only if memory runs out.
pub(crate) fn row_of(
    alloc: Global,
    goals: &[StopId],
    list: &[TravelTimes],
) -> Result<Row, AllocError>
    requires { AllPairs (λ a b. a.stop < b.stop) list.now }
    ensures { IfOk result (λ row. AllZip (IsCell list.now) goals.now row.items) }
{
    let mut row = Vec::with_capacity(alloc, goals.len())?;
    for goal in goals {
        row.push(cell_of(list, *goal))?;
    }
    Ok(row)
}
