//! The last ride from a stop to a stop that arrives by a moment.

ghost use Rattle.std.specs.Prelude.{◌≡◌, ℕ, ◌<◌, ◌≤◌, IfSome, IfNone};
ghost use Rattle.std.specs.List.{AllPairs};
ghost use Rattle.timetable.specs.Table.{IsTable};
ghost use Rattle.timetable.specs.Journeys.{departs};
ghost use Rattle.timetable.specs.declared.parts.Leg.{Leg as LegData};
ghost use Rattle.lines.specs.Lines.{AreLines, AreNoLater};
ghost use Rattle.direct_connections.specs.Direct.{IsMadeFor};
ghost use Rattle.direct_connections.specs.Search.{IsPositionOf, IsNearest, BoardsAt};
ghost use Rattle.direct_connections.specs.Latest.{ServesBy, ArriveBy, IsLastRide};

use crate::direct::Direct;
use crate::positions::first_behind;
use lines::{LinePosition, Lines, Times};
use timetable::{Leg, StopId, Timetable};

/// A ride, and when it departs.
#[derive(Clone, Copy)]
pub struct LastRide {
    pub leg: Leg,
    pub departure: u32,
}

// How many of the times, which never fall, arrive by the moment.
fn count_arriving(times: &[Times], by: u32) -> usize
    requires { AllPairs AreNoLater times.now }
    ensures { ArriveBy times.now by result }
{
    times.partition_point(|times| times.arrival <= by)
}

// The ride of the line's last instance that arrives at the one position by the moment `by`, from the other position, if it departs there
// at `since` or later.
fn last_ride(
    table: &Timetable,
    lines: &Lines,
    board: LinePosition,
    alight: LinePosition,
    by: u32,
    since: u32,
) -> Option<LastRide>
    requires table { IsTable table.now }
    requires lines { AreLines table.now lines.now }
    requires board { IsPositionOf lines.now.lines board }
    requires alight { IsPositionOf lines.now.lines alight }
    requires same { alight.line ≡ board.line }
    ensures found { IfSome result (λ ride. (p q : ℕ) → IsNearest lines.now.lines p q board alight
        → IsLastRide table.now lines.now.lines p q by since board ride) }
    ensures none { IfNone result ((p q : ℕ) → IsNearest lines.now.lines p q board alight
        → (leg : LegData) → ServesBy table.now p q by leg → BoardsAt lines.now.lines board leg → departs table.now leg < since) }
{
    let line = lines.line(board.line as usize);
    let departing = line.times_at(board.position as usize);
    let count = count_arriving(line.times_at(alight.position as usize), by);
    if count == 0 {
        return None;
    }
    let last = count - 1;
    let departure = departing[last].departure;
    if departure < since {
        return None;
    }
    let leg = Leg {
        instance: line.members()[last],
        board: board.position,
        alight: alight.position,
    };
    Some(LastRide { leg, departure })
}

impl Direct {
    /// A ride from one stop to another that arrives at `by` or before, in seconds from the start of the first covered day, and departs
    /// as late as any. None only if there is none. It was made for this timetable, of these lines. It takes no memory.
    ///
    /// The positions of both stops are gone through once, side by side, as `earliest` does it. On a line the last instance is found by
    /// binary search. Later positions of alighting aren't searched, since no instance arrives there earlier.
    pub fn latest(
        &self,
        table: &Timetable,
        lines: &Lines,
        from: StopId,
        to: StopId,
        by: u32,
    ) -> Option<LastRide>
        requires { IsMadeFor table.now lines.now self.now }
        ensures ride { IfSome result (λ ride. ServesBy table.now from to by ride.leg) }
        ensures departure { IfSome result (λ ride. ride.departure ≡ departs table.now ride.leg) }
        ensures most { IfSome result (λ ride. (other : LegData) → ServesBy table.now from to by other
            → departs table.now other ≤ ride.departure) }
        ensures none { IfNone result ((leg : LegData) → ¬ ServesBy table.now from to by leg) }
    {
        let alights = self.alights_at(to);
        let mut best: Option<LastRide> = None;
        let mut since = 0;
        let mut next = 0;
        for board in self.boards_at(from) {
            next = first_behind(alights, next, *board);
            if next == alights.len() {
                break;
            }
            let alight = alights[next];
            if alight.line == board.line {
                if let Some(ride) = last_ride(table, lines, *board, alight, by, since) {
                    since = ride.departure + 1;
                    best = Some(ride);
                }
            }
        }
        best
    }
}
