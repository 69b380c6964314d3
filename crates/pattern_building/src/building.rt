//! The tree of a source, built from the rounds at each of its events.

ghost use Rattle.std.specs.Prelude.{◌≡◌, ◌≢◌, ℕ, ◌<◌, ◌≤◌, length, Err, IfOk, OnOk};
ghost use Rattle.std.specs.List.{AllPairs};
ghost use Rattle.timetable.specs.Table.{stops_of};
ghost use Rattle.rounds.specs.Events.{IsEvent};
ghost use Rattle.rounds.specs.Scratch.{IsMadeFor, IsAlike, MayGoOn, GoesOn, rides_of, rounds_of, before_of, source_of, kept_of};
ghost use Rattle.pattern_tree.specs.Forest.{Pair};
ghost use Rattle.pattern_tree.specs.Content.{IsTooLarge, longest};
ghost use Rattle.pattern_tree.specs.Completeness.{Complete, Earned, TooManyAreEarned};
ghost use Rattle.pattern_building.specs.RoundPairs.{Gives, InRound, IsGiven, AddsGiven, Keeps, HasGiven, CompleteAt};
ghost use Rattle.pattern_building.specs.Lowered.{Lowered, AreLater};

use crate::growing::GrowingTree;
use pattern_tree::{PatternTree, TreeFault};
use rounds::{RoundView, Scratch};
use std::alloc::{Allocator, Global};
use timetable::{StopId, Timetable};

// Puts in the pairs of journeys of exactly `rides` rides, to one of the first `stops` stops, that are sooner than with fewer, where the run
// lowered the arrival.
fn add_round<A: Allocator + Clone>(
    view: &RoundView<'_>,
    rides: u8,
    stops: usize,
    tree: &mut GrowingTree<A>,
) -> Result<(), TreeFault>
    requires some { 1 ≤ rides }
    requires few { rides ≤ length (rounds_of view.now) }
    requires ridden { (p : Pair) → p.1 < stops → Gives (rounds_of view.now) rides p → 0 < length p.0 }
    requires once { AllPairs (λ p q. p ≢ q) tree.old.pairs }
    ensures source { tree.new.source ≡ tree.old.source }
    ensures once { AllPairs (λ p q. p ≢ q) tree.new.pairs }
    ensures adds { AddsGiven (rounds_of view.now) (InRound rides stops) tree.old.pairs tree.new.pairs }
    ensures keeps { Keeps tree.old.pairs tree.new.pairs }
    ensures all { OnOk result
        (HasGiven (rounds_of view.now) (Lowered (rounds_of view.now) (before_of view.now) (InRound rides stops)) tree.new.pairs) }
    ensures large { result ≡ Err TreeFault.TooLarge
        → (p : Pair) × IsGiven (rounds_of view.now) (InRound rides stops) p × IsTooLarge tree.new.pairs p }
{
    for stop in view.lowered(rides) {
        if stop.number() < stops {
            if let Some(path) = view.pattern_stops(rides, *stop) {
                tree.insert(path, *stop)?;
            }
        }
    }
    Ok(())
}

// Puts in the pairs of the best journeys at one event, but those with an arrival that a later event has too. For these the tree has pairs.
fn add_event<A: Allocator + Clone>(
    table: &Timetable,
    event: u32,
    scratch: &mut Scratch,
    tree: &mut GrowingTree<A>,
) -> Result<(), TreeFault>
    requires table { IsMadeFor scratch.old table.now }
    requires source { source_of scratch.old < stops_of table.now }
    requires kept { MayGoOn table.now event scratch.old }
    requires later { AreLater table.now (rides_of scratch.old) (source_of scratch.old) event tree.old.pairs (kept_of scratch.old) }
    requires event { IsEvent table.now (source_of scratch.old) event }
    requires once { AllPairs (λ p q. p ≢ q) tree.old.pairs }
    requires earned { Earned table.now (rides_of scratch.old) (source_of scratch.old) tree.old.pairs }
    ensures on { GoesOn table.now event scratch.old scratch.new }
    ensures source { tree.new.source ≡ tree.old.source }
    ensures once { AllPairs (λ p q. p ≢ q) tree.new.pairs }
    ensures earned { Earned table.now (rides_of scratch.old) (source_of scratch.old) tree.new.pairs }
    ensures keeps { Keeps tree.old.pairs tree.new.pairs }
    ensures complete { OnOk result (CompleteAt table.now (rides_of scratch.old) (source_of scratch.old) event tree.new.pairs) }
    ensures large { result ≡ Err TreeFault.TooLarge → TooManyAreEarned table.now (rides_of scratch.old) (source_of scratch.old) }
{
    let rides = scratch.rides();
    let stops = table.stops();
    let view = scratch.run_kept(table, event)?;
    for round in 0..rides.number() {
        add_round(&view, round + 1, stops, tree)?;
    }
    Ok(())
}

/// The tree of a source: for each moment and stop, the patterns of the best journeys of at most as many rides as the
/// scratch has, and no others. It lies in the memory of `alloc`. The moments to leave at, and the pairs that were put in last, lie in that
/// of `global` meanwhile.
///
/// TooLarge comes only if there are more such patterns and ends than a tree holds. Every other fault is that memory ran
/// out. The scratch is one of this timetable, and serves further runs, also after a fault.
pub fn build<A: Allocator + Clone>(
    alloc: A,
    global: Global,
    table: &Timetable,
    source: StopId,
    scratch: &mut Scratch,
) -> Result<PatternTree<A>, TreeFault>
    requires table { IsMadeFor scratch.old table.now }
    requires source { source < stops_of table.now }
    ensures same { IsAlike scratch.old scratch.new }
    ensures source { IfOk result (λ tree. tree.source ≡ source) }
    ensures complete { IfOk result (λ tree. Complete table.now (rides_of scratch.old) source tree.pairs) }
    ensures earned { IfOk result (λ tree. Earned table.now (rides_of scratch.old) source tree.pairs) }
    ensures short { IfOk result (λ tree. longest tree.pairs ≤ rides_of scratch.old) }
    ensures large { result ≡ Err TreeFault.TooLarge → TooManyAreEarned table.now (rides_of scratch.old) source }
{
    let moments = scratch.departures(global, table, source)?;
    let rides = scratch.rides().number() as usize;
    let mut tree = GrowingTree::new(alloc, global, source, rides, table.stops())?;
    // From the last to the first: the rides of a later event can be taken by one who is there earlier.
    scratch.restart(source);
    for index in (0..moments.len()).rev() {
        add_event(table, moments[index], scratch, &mut tree)?;
    }
    Ok(tree.into_tree())
}
