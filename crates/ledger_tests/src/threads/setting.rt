//! A timetable that is made up, ledgers of it, and finished trees of its stops.

ghost use Rattle.std.specs.Prelude.{◌≡◌, ◌<◌, ◌≤◌};

use pattern_building::finish;
use pattern_tree::{Arena, Finished};
use rounds::Scratch;
use sample_feed::{Feed, Span, table_of};
use std::alloc::{AllocError, Global};
use std::fmt::Write;
use std::marker::Model;
use std::sync::Arc;
use std::test::Fail;
use timetable::{Rides, StopId, Timetable};
use work_ledger::Ledger;

// The most rides of each journey, in the trees and the ledgers.
const RIDES: u8 = 1;

/// A ledger of the timetable with room for `room` waiting trees.
pub fn ledger(alloc: Global, table: &Arc<Timetable>, room: usize) -> Result<Ledger, AllocError>
    requires some { 0 < room }
    requires most { room ≤ 256 }
{
    Ledger::new(alloc, table, Rides::new(RIDES), &[], room)
}

/// The timetable of `stops` stops, at which nothing calls.
pub fn bare_stops(rt: &HostRuntime, stops: u32) -> Result<Arc<Timetable>, Fail> {
    let mut rows = String::from_str(rt.alloc(), "stop_id\n")?;
    for number in 0..stops {
        writeln!(rows, "S{number}")?;
    }
    let feed = Feed {
        stops: &rows,
        trips: "trip_id,service_id\n",
        stop_times: "trip_id,stop_id,stop_sequence,arrival_time,departure_time\n",
        transfers: "from_stop_id,to_stop_id\n",
        ..Feed::SAMPLE
    };
    Ok(Arc::new(rt.alloc(), table_of(rt, feed, Span::TUESDAY)?)?)
}

/// What the trees of a timetable's stops are built with.
#[derive(Drop)]
pub struct Workshop {
    alloc: Global,
    table: Arc<Timetable>,
    rides: Rides,
    scratch: Scratch,
    arena: Arena,
}

impl Model for Workshop {
    ghost use Rattle.std.specs.Prelude.{◌≡◌};
    ghost use Rattle.std.specs.Arc.{arc_value};
    ghost use Rattle.timetable.specs.Table.{Table};
    ghost use Rattle.rounds.specs.Scratch.{IsMadeFor, rides_of};

    ghost Value = { Table };

    ghost view = { λ w. arc_value w.table };

    ghost invariant = { λ w. IsMadeFor w.scratch (arc_value w.table) × (rides_of w.scratch ≡ w.rides) };
}

impl Workshop {
    /// For trees of this timetable's stops.
    pub fn new(alloc: Global, table: &Arc<Timetable>) -> Result<Workshop, AllocError> {
        let rides = Rides::new(RIDES);
        let table = Arc::try_clone(table)?;
        let scratch = Scratch::new(alloc, &table, rides)?;
        let arena = Arena::new(alloc)?;
        Ok(Workshop {
            alloc,
            table,
            rides,
            scratch,
            arena,
        })
    }

    /// The finished tree of a stop of the timetable, unless memory is refused.
    pub fn tree(&mut self, source: StopId) -> Option<Finished> {
        if source.number() >= self.table.stops() {
            return None;
        }
        finish(
            self.alloc,
            &self.table,
            source,
            self.rides,
            &mut self.scratch,
            &mut self.arena,
        )
        .ok()
    }
}
