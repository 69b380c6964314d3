//! What a core is for.

ghost use Rattle.std.specs.Prelude.{◌≡◌, ◌↔◌, ◌<◌, ◌≤◌, IsTrue, IfOk};
ghost use Rattle.std.specs.Arc.{arc_value};
ghost use Rattle.std.specs.List.{All};
ghost use Rattle.timetable.specs.Table.{stops_of};
ghost use Rattle.section_store.specs.Lasting.{IsExact};
ghost use Rattle.section_store.specs.Sections.{form_of};
ghost use Rattle.planner_core.specs.Steps.{IsAnswer, IsNewLedger};

use direct_connections::Network;
use pattern_query::{Answer, Patterns, ask};
use std::alloc::{AllocError, Global};
use std::marker::Model;
use std::sync::Arc;
use timetable::{Rides, StopId, Timetable};
use work_ledger::Ledger;

/// The timetable with what rides are sought by, the most rides of a journey, and for how many waiting trees the ledger has room.
#[derive(Drop)]
pub(crate) struct Tools {
    network: Network,
    rides: Rides,
    room: usize,
}

impl Model for Tools {
    ghost use Rattle.std.specs.Prelude.{◌<◌, ◌≤◌};
    ghost use Rattle.section_store.specs.Sections.{form_of};
    ghost use Rattle.planner_core.specs.Views.{Basis};

    ghost Value = { Basis };

    ghost view = { λ t. record { form = form_of t.network t.rides; room = t.room } };

    ghost invariant = { λ t. (0 < t.room) × (t.room ≤ 256) };
}

impl Tools {
    /// The tools for a timetable, journeys of at most `rides` rides, and `room` waiting trees. It fails only if memory runs out.
    pub(crate) fn new(
        alloc: Global,
        table: &Arc<Timetable>,
        rides: Rides,
        room: usize,
    ) -> Result<Tools, AllocError>
        requires some { 0 < room }
        requires most { room ≤ 256 }
        ensures form { IfOk result (λ tools. tools.form ≡ form_of (arc_value table.now) rides) }
        ensures room { IfOk result (λ tools. tools.room ≡ room) }
    {
        let network = Network::of(alloc, Arc::try_clone(table)?)?;
        Ok(Tools {
            network,
            rides,
            room,
        })
    }

    /// The timetable.
    pub(crate) fn table(&self) -> &Arc<Timetable>
        ensures value { arc_value result.now ≡ self.now.form.table }
        ensures own { form_of (arc_value result.now) self.now.form.rides ≡ self.now.form }
    {
        self.network.shared()
    }

    /// The most rides of a journey.
    pub(crate) fn rides(&self) -> Rides
        ensures { result ≡ self.now.form.rides }
    {
        self.rides
    }

    /// A ledger of which these sources are stored.
    pub(crate) fn ledger(&self, alloc: Global, stored: &[StopId]) -> Result<Ledger, AllocError>
        requires { All (λ s. s < stops_of self.now.form.table) stored.now }
        ensures { IfOk result (IsNewLedger self.now stored.now) }
    {
        Ledger::new(alloc, self.network.shared(), self.rides, stored, self.room)
    }

    /// Whether it is a stop of the timetable.
    pub(crate) fn has(&self, stop: StopId) -> bool
        ensures { IsTrue result ↔ (stop < stops_of self.now.form.table) }
    {
        stop.number() < self.network.timetable().stops()
    }

    /// Whether the moment is covered.
    pub(crate) fn covers(&self, moment: u32) -> bool
        ensures { IsTrue result ↔ (moment ≤ self.now.form.table.horizon) }
    {
        self.network.timetable().covers(moment)
    }

    /// The best journeys from a tree's source to a stop, at a covered moment. It takes no memory.
    pub(crate) fn ask(&self, patterns: &Patterns, to: StopId, depart: u32) -> Answer
        requires covered { depart ≤ self.now.form.table.horizon }
        requires right { IsExact self.now.form patterns.now }
        ensures { IsAnswer self.now.form patterns.now to depart result }
    {
        let _timetable = self.network.timetable();
        ask(&self.network, patterns, to, depart)
    }
}
