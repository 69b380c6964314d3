//! What questions are answered with, and trees are built for.

ghost use Rattle.std.specs.Prelude.{◌≡◌};
ghost use Rattle.std.specs.Arc.{arc_value};
ghost use Rattle.section_store.specs.Sections.{form_of};

use direct_connections::Network;
use feed_ids::Names;
use std::marker::Model;
use std::sync::Arc;
use timetable::Rides;

/// A timetable with its lines and direct connections, the ids of its feed, and the most rides of a journey. It has no trees: those are
/// on the board at which its readers look.
#[derive(Drop)]
pub struct Planner {
    pub(crate) network: Network,
    pub(crate) names: Arc<Names>,
    rides: Rides,
}

impl Model for Planner {
    ghost use Rattle.std.specs.Arc.{arc_value};
    ghost use Rattle.section_store.specs.Sections.{form_of};
    ghost use Rattle.planner.specs.PlannerView.{PlannerView};

    ghost Value = { PlannerView };

    ghost view = { λ p. record { form = form_of p.network p.rides; names = arc_value p.names } };
}

impl Planner {
    // The planner of a timetable, with the ids of its feed.
    pub(crate) fn new(network: Network, names: Arc<Names>, rides: Rides) -> Planner
        ensures { result ≡ record { form = form_of network rides; names = arc_value names } }
    {
        Planner {
            network,
            names,
            rides,
        }
    }

    /// The timetable, with its lines and direct connections.
    pub fn network(&self) -> &Network
        ensures { result.now ≡ self.now.form.table }
    {
        &self.network
    }

    /// The ids of the feed's stops, stations and trips.
    pub fn names(&self) -> &Names
        ensures { result.now ≡ self.now.names }
    {
        &self.names
    }

    /// The most rides of a journey.
    pub fn k(&self) -> Rides
        ensures value { result ≡ self.now.form.rides }
        ensures own { form_of self.now.form.table result ≡ self.now.form }
    {
        self.rides
    }
}
