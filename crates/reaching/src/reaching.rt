//! The earliest arrival at every stop, by the rounds.

ghost use Rattle.std.specs.Prelude.{◌≡◌, ◌<◌, ◌≤◌, ◌↔◌, ℕ, IfOk, IsTrue, MatchOption, OnOk};
ghost use Rattle.std.specs.List.{AllPairs};
ghost use Rattle.std.specs.List.Sorted.{IsPermutation};
ghost use Rattle.timetable.specs.Front.{AreFront};
ghost use Rattle.timetable.specs.Journeys.{Reaches};
ghost use Rattle.timetable.specs.Table.{Table, stops_of};
ghost use Rattle.timetable.specs.declared.parts.Numbers.{Numbers};
ghost use Rattle.rounds.specs.Answers.{AreRounds};
ghost use Rattle.rounds.specs.Scratch.{rounds_of};
ghost use Rattle.reaching.specs.Listed.{AreListed};
ghost use Rattle.reaching.specs.Reached.{AreReached, IsBefore, IsBy, IsSoonest};

use crate::reached::Reached;
use rounds::{RoundView, plain_rounds, points};
use std::alloc::{AllocError, Global};
use timetable::{LATEST_MOMENT, Numbers, Rides, StopId, Timetable};

// The soonest of the best numbers, which rise by rides.
fn soonest_of(front: &[Numbers]) -> Option<Numbers>
    ensures { (table : Table) (k s t d : ℕ) → AreFront table k s t d front.now
        → MatchOption result ((m : Numbers) → ¬ Reaches table 0 k s t d m) (IsSoonest (Reaches table 0 k s t d)) }
{
    front.last().copied()
}

// Whether a moment isn't after the last one, if there is a last one.
fn is_by(last: Option<u32>, moment: u32) -> bool
    ensures { IsTrue result ↔ IsBy last moment }
{
    match last {
        Some(last) => moment <= last,
        None => true,
    }
}

// The stops at which one can be by `last`, in their order in the timetable.
fn list_stops(
    alloc: Global,
    table: &Timetable,
    view: &RoundView<'_>,
    from: StopId,
    depart: u32,
    rides: Rides,
    last: Option<u32>,
) -> Result<Vec<Reached>, AllocError>
    requires from { from < stops_of table.now }
    requires early { depart ≤ LATEST_MOMENT }
    requires rounds { AreRounds table.now from depart rides (rounds_of view.now) }
    ensures { IfOk result (λ list. AreListed table.now rides from depart last (stops_of table.now) list.items) }
{
    let mut list = Vec::new(alloc);
    for number in 0..table.stops() {
        let stop = StopId::new(number as u32);
        let front = points(table, view, from, stop, depart, rides);
        if let Some(soonest) = soonest_of(&front) {
            if is_by(last, soonest.arrival) {
                list.push(Reached {
                    stop,
                    arrival: soonest.arrival,
                    rides: soonest.rides,
                })?;
            }
        }
    }
    Ok(list)
}

// Sorts different stops by arrival, then by number.
fn sort_stops(list: &mut Vec<Reached>) -> Result<(), AllocError>
    ensures kept { IsPermutation list.old.items list.new.items }
    ensures sorted { OnOk result (AllPairs (λ a b. a.stop < b.stop) list.old.items → AllPairs IsBefore list.new.items) }
{
    list.sort_by_key(|reached| (reached.arrival, reached.stop))?;
    Ok(())
}

/// The stops at which one can be by the moment `last`, if one is given, who leaves a stop at the moment `depart`, which is at most
/// `LATEST_MOMENT`, with at most `rides` rides: by arrival, then by number. With no rides one walks, and is at the stop itself at once.
///
/// Each round looks at every instance once. It fails only if memory runs out.
pub fn reach(
    alloc: Global,
    table: &Timetable,
    from: StopId,
    depart: u32,
    rides: Rides,
    last: Option<u32>,
) -> Result<Vec<Reached>, AllocError>
    requires from { from < stops_of table.now }
    requires early { depart ≤ LATEST_MOMENT }
    ensures { IfOk result (λ list. AreReached table.now rides from depart last list.items) }
{
    let rounds = plain_rounds(alloc, table, from, depart, rides)?;
    let mut list = list_stops(alloc, table, &rounds.view(), from, depart, rides, last)?;
    sort_stops(&mut list)?;
    Ok(list)
}
