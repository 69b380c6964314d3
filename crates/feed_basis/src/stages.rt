//! Rides and walks as they are reported.

ghost use Rattle.std.specs.Prelude.{IfOk};
ghost use Rattle.std.specs.List.{All, AllZip};
ghost use Rattle.feed_basis.specs.Points.{IsKnownStage};
ghost use Rattle.feed_basis.specs.Stages.{TellsStage};

use crate::basis::Basis;
use crate::numbered::NumberedStage;
use answer_lines::Stage;
use gtfs_tables::Id;
use std::alloc::{AllocError, Global};

// A ride or a walk, as it is reported. It fails only if memory runs out.
fn stage_of(alloc: Global, basis: &Basis, stage: NumberedStage) -> Result<Stage, AllocError>
    requires { IsKnownStage basis.now stage }
    ensures { IfOk result (TellsStage basis.now stage) }
{
    let timetable = basis.timetable();
    let names = basis.names();
    let told = match stage {
        NumberedStage::Ride(leg) => {
            let trip = timetable.instance(leg.instance as usize).trip();
            Stage::Ride {
                leg,
                trip: Id::new(alloc, names.trip(trip))?,
                from: Id::new(alloc, names.stop(timetable.boarding_stop(leg)))?,
                departs: basis.day_time(timetable.departure_of(leg)),
                to: Id::new(alloc, names.stop(timetable.alighting_stop(leg)))?,
                arrives: basis.day_time(timetable.arrival_of(leg)),
            }
        }
        NumberedStage::Walk {
            from,
            to,
            departure,
            arrival,
        } => Stage::Walk {
            from: Id::new(alloc, names.stop(from))?,
            departs: basis.day_time(departure),
            to: Id::new(alloc, names.stop(to))?,
            arrives: basis.day_time(arrival),
        },
    };
    Ok(told)
}

/// Rides and walks, as they are reported. It fails only if memory runs out.
pub fn stages_of(
    alloc: Global,
    basis: &Basis,
    numbered: &[NumberedStage],
) -> Result<Vec<Stage>, AllocError>
    requires { All (IsKnownStage basis.now) numbered.now }
    ensures { IfOk result (λ stages. AllZip (TellsStage basis.now) numbered.now stages.items) }
{
    let mut stages = Vec::with_capacity(alloc, numbered.len())?;
    for stage in numbered {
        stages.push(stage_of(alloc, basis, *stage)?)?;
    }
    Ok(stages)
}
