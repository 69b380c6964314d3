//! What a worker builds with.

ghost use Rattle.std.specs.Prelude.{◌≡◌, IfOk, IfSome};
ghost use Rattle.section_store.specs.Sections.{form_of};

use direct_connections::Network;
use pattern_building::finish;
use pattern_tree::{Arena, Finished};
use rounds::Scratch;
use std::alloc::{AllocError, Global};
use std::marker::Model;
use std::sync::Arc;
use timetable::{Rides, StopId, Timetable};

/// The scratch and the arena of one worker, over a timetable and lines that all share.
#[derive(Drop)]
pub(crate) struct Builder {
    table: Arc<Timetable>,
    rides: Rides,
    scratch: Scratch,
    arena: Arena,
}

impl Model for Builder {
    ghost use Rattle.std.specs.Prelude.{◌≡◌};
    ghost use Rattle.std.specs.Arc.{arc_value};
    ghost use Rattle.rounds.specs.Scratch.{IsMadeFor, rides_of};
    ghost use Rattle.section_store.specs.Sections.{Form, form_of};

    ghost Value = { Form };

    ghost view = { λ b. form_of (arc_value b.table) b.rides };

    ghost invariant = { λ b. IsMadeFor b.scratch (arc_value b.table) × (rides_of b.scratch ≡ b.rides) };
}

impl Builder {
    /// For trees of the network's timetable and at most `rides` rides, over the lines that it has. It fails only if memory runs out.
    pub(crate) fn new(alloc: Global, network: &Network, rides: Rides) -> Result<Builder, AllocError>
        ensures { IfOk result (λ bench. bench ≡ form_of network.now rides) }
    {
        let table = Arc::try_clone(network.shared())?;
        let lines = Arc::try_clone(network.shared_lines())?;
        let scratch = Scratch::over(alloc, &table, lines, rides)?;
        let arena = Arena::new(alloc)?;
        Ok(Builder {
            table,
            rides,
            scratch,
            arena,
        })
    }

    /// The finished tree of a stop of the timetable; none if it is too large or memory is refused.
    pub(crate) fn build(&mut self, alloc: Global, source: StopId) -> Option<Finished>
        ensures own { IfSome result (λ tree. form_of tree.table tree.rides ≡ self.old) }
        ensures same { self.new ≡ self.old }
    {
        if source.number() >= self.table.stops() {
            return None;
        }
        finish(
            alloc,
            &self.table,
            source,
            self.rides,
            &mut self.scratch,
            &mut self.arena,
        )
        .ok()
    }
}
