//! The ways on from one stop.

ghost use Rattle.std.specs.Prelude.{◌≡◌, ◌↔◌, ◌≤◌, ◌<◌, [], IsTrue, OnOk};
ghost use Rattle.least_walks.specs.Ways.{HasNoWorse, Gathers, ways_at};

use crate::way::Way;
use std::alloc::{AllocError, Global};
use std::marker::Model;
use timetable::StopId;

/// Ways on from one stop.
#[derive(Drop)]
pub(crate) struct Ways {
    row: Vec<Way>,
}

impl Model for Ways {
    ghost use Rattle.std.specs.Prelude.{List};
    ghost use Rattle.least_walks.specs.Ways.{WayData};

    ghost Value = { List WayData };

    ghost view = { λ a. a.row.items };
}

impl Ways {
    /// No way.
    pub(crate) fn new(alloc: Global) -> Ways
        ensures { result ≡ [] }
    {
        Ways {
            row: Vec::new(alloc),
        }
    }

    /// The ways.
    pub(crate) fn row(&self) -> &[Way]
        ensures { result.now ≡ self.now }
    {
        &self.row
    }

    // Whether one of them is no worse than the way.
    fn has_no_worse(&self, way: &Way) -> bool
        ensures { IsTrue result ↔ HasNoWorse self.now way.now }
    {
        for other in &self.row {
            if way.moment() <= other.moment() && other.walked() <= way.walked() {
                return true;
            }
        }
        false
    }

    /// Adds the way if it can be taken at `since` or later, has less than `bound` seconds on foot, and none that is there is no worse. It
    /// fails only if memory runs out.
    pub(crate) fn offer(&mut self, since: u32, bound: u32, way: Way) -> Result<(), AllocError>
        ensures { OnOk result (Gathers (λ w. w ≡ way) since bound self.old self.new) }
    {
        if way.moment() < since || bound <= way.walked() || self.has_no_worse(&way) {
            return Ok(());
        }
        self.row.push(way)?;
        Ok(())
    }
}

/// The ways of a stop; none if there is no such stop.
pub(crate) fn row_at(rows: &[Ways], stop: StopId) -> &[Way]
    ensures { result.now ≡ ways_at rows.now stop }
{
    match rows.get(stop.number()) {
        Some(ways) => ways.row(),
        None => &[],
    }
}
