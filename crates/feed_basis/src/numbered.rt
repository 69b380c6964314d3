//! The rides and walks of a journey.

ghost use Rattle.std.specs.Prelude.{◌≡◌, ◌≤◌, ◌++◌, IfOk, OnOk};
ghost use Rattle.timetable.specs.Table.{IsTable};
ghost use Rattle.feed_basis.specs.Stages.{stages_of, walk_stage};

use std::alloc::{AllocError, Global};
use timetable::{LATEST_MOMENT, Leg, StopId, Timetable};

/// A stage of a journey by its numbers: a ride, or a walk to another stop with the moments at which it begins and ends.
#[derive(Clone, Copy)]
pub enum NumberedStage {
    Ride(Leg),
    Walk {
        from: StopId,
        to: StopId,
        departure: u32,
        arrival: u32,
    },
}

// Puts in the walk between two stops that begins at the moment, if they are two.
fn push_walk(
    stages: &mut Vec<NumberedStage>,
    table: &Timetable,
    from: StopId,
    at: u32,
    to: StopId,
) -> Result<(), AllocError>
    requires early { at ≤ LATEST_MOMENT }
    ensures { OnOk result (stages.new.items ≡ stages.old.items ++ walk_stage table.now from at to) }
{
    if from != to {
        let seconds = table.walk(from, to).unwrap_or(0);
        stages.push(NumberedStage::Walk {
            from,
            to,
            departure: at,
            arrival: at + seconds,
        })?;
    }
    Ok(())
}

/// The rides and walks of one who is at a stop at the moment, takes the legs, and goes to another stop. It fails only if memory runs out.
pub fn numbered_stages(
    alloc: Global,
    table: &Timetable,
    from: StopId,
    depart: u32,
    legs: &[Leg],
    to: StopId,
) -> Result<Vec<NumberedStage>, AllocError>
    requires valid { IsTable table.now }
    requires early { depart ≤ LATEST_MOMENT }
    ensures { IfOk result (λ stages. stages.items ≡ stages_of table.now from depart legs.now to) }
{
    let mut stages = Vec::new(alloc);
    let mut stop = from;
    let mut at = depart;
    for leg in legs {
        push_walk(&mut stages, table, stop, at, table.boarding_stop(*leg))?;
        stages.push(NumberedStage::Ride(*leg))?;
        stop = table.alighting_stop(*leg);
        at = table.arrival_of(*leg);
    }
    push_walk(&mut stages, table, stop, at, to)?;
    Ok(stages)
}
