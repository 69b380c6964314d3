//! When the last instances of lines depart, by stop.

ghost use Rattle.std.specs.Prelude.{◌≡◌, ℕ, IfOk, map};
ghost use Rattle.std.specs.List.{All};
ghost use Rattle.lines.specs.Lines.{CallsAt, last_departure_at};

use crate::line::Line;
use crate::lines::LinePosition;
use crate::positions::Positions;
use std::alloc::{AllocError, Global};
use std::marker::Model;

/// A position of a line, and when the last instance of the line departs there, in seconds from the start of the first covered day.
#[derive(Clone, Copy)]
pub struct LastDeparture {
    pub departure: u32,
    pub at: LinePosition,
}

/// The last departures of lines at one stop.
#[derive(Drop)]
pub struct LastDepartures {
    row: Vec<LastDeparture>,
}

impl Model for LastDepartures {
    ghost use Rattle.std.specs.Prelude.{List};
    ghost use Rattle.lines.specs.declared.last.LastDeparture.{LastDeparture as LastData};

    ghost Value = { List LastData };

    ghost view = { λ a. a.row.items };
}

impl LastDepartures {
    // Those at these positions.
    fn of(
        alloc: Global,
        lines: &[Line],
        positions: &[LinePosition],
    ) -> Result<LastDepartures, AllocError>
        requires { All (λ at. (stop : ℕ) × CallsAt lines.now stop at) positions.now }
        ensures { IfOk result (λ last. last ≡ map (last_departure_at lines.now) positions.now) }
    {
        let mut row = Vec::with_capacity(alloc, positions.len())?;
        for at in positions {
            let line = &lines[at.line as usize];
            row.push(LastDeparture {
                departure: line.last_departure(at.position as usize),
                at: *at,
            })?;
        }
        Ok(LastDepartures { row })
    }

    /// The last departures, in the order of the positions.
    pub fn row(&self) -> &[LastDeparture]
        ensures { result.now ≡ self.now }
    {
        &self.row
    }
}

/// The last departures at each stop, by the positions there.
pub fn last_departures(
    alloc: Global,
    lines: &[Line],
    positions: &[Positions],
) -> Result<Vec<LastDepartures>, AllocError>
    requires { All (All (λ at. (stop : ℕ) × CallsAt lines.now stop at)) positions.now }
    ensures { IfOk result (λ last. last.items ≡ map (map (last_departure_at lines.now)) positions.now) }
{
    let mut last = Vec::with_capacity(alloc, positions.len())?;
    for at in positions {
        last.push(LastDepartures::of(alloc, lines, at.row())?)?;
    }
    Ok(last)
}
