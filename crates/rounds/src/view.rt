//! What a run of the rounds found.

ghost use Rattle.std.specs.Prelude.{◌≡◌, ℕ, ◌≤◌, ◌-◌, ◌↔◌, length, IsNone, IsSome, IfSome, IsSomeAnd, IsTrue, None, Some, map};
ghost use Rattle.std.specs.List.{Contains};
ghost use Rattle.timetable.specs.Front.{IsSooner};
ghost use Rattle.rounds.specs.Mark.{mark_in, arrival_in, moment_in};
ghost use Rattle.stop_labels.specs.Row.{RowData};
ghost use Rattle.rounds.specs.Scratch.{rounds_of, before_of};

use std::alloc::{AllocFailed, Global};
use std::marker::Model;
use stop_labels::{Label, Path, Row, is_sooner};
use timetable::StopId;

/// What a run found, kept by its owner.
#[derive(Drop)]
pub struct Rounds {
    rounds: Vec<Row>,
}

impl Model for Rounds {
    ghost use Rattle.std.specs.Prelude.{List, Option, map};
    ghost use Rattle.rounds.specs.Mark.{Mark};
    ghost use Rattle.stop_labels.specs.Row.{RowData};

    ghost Value = { List (List (Option Mark)) };

    ghost view = { λ a. map (λ (row : RowData). row.marks) a.rounds.items };
}

impl Rounds {
    ghost use Rattle.std.specs.Prelude.{[], ◌∷◌, ◌++◌, OnOk};

    pub(crate) fn new(alloc: Global) -> Self
        ensures { result ≡ [] }
    {
        Rounds {
            rounds: Vec::new(alloc),
        }
    }

    pub(crate) fn push(&mut self, row: Row) -> Result<(), AllocFailed<Row>>
        ensures { OnOk result (self.new ≡ self.old ++ row.marks ∷ []) }
    {
        self.rounds.push(row)
    }

    /// The rounds, to be read.
    pub fn view(&self) -> RoundView<'_>
        ensures { rounds_of result ≡ self.now }
    {
        RoundView::of(&self.rounds)
    }
}

/// What a run found, to be read. It takes no memory.
#[derive(Clone, Copy)]
pub struct RoundView<'a> {
    rounds: &'a [Row],
}

impl<'a> RoundView<'a> {
    pub(crate) fn of(rounds: &'a [Row]) -> RoundView<'a>
        ensures rounds { rounds_of result ≡ map (λ (row : RowData). row.marks) rounds.now }
        ensures before { before_of result ≡ map (λ (row : RowData). row.settled) rounds.now }
    {
        RoundView { rounds }
    }
}

impl RoundView<'_> {
    /// The moment of the least arrival over journeys of one to `rides` rides to the stop; none if there is no such journey. With no rides,
    /// or at a stop that the timetable hasn't, there is none.
    pub fn arrival(&self, rides: u8, stop: StopId) -> Option<u32>
        requires { rides ≤ length (rounds_of self.now) }
        ensures { result ≡ arrival_in (rounds_of self.now) rides stop }
    {
        if rides == 0 {
            return None;
        }
        self.rounds[rides as usize - 1].arrival(stop)
    }

    /// The stops of boarding and alighting of a journey of exactly `rides` rides that arrives then, if it is sooner than with fewer rides.
    /// It is none exactly if one ride more isn't sooner.
    pub fn pattern(&self, rides: u8, stop: StopId) -> Option<Path>
        requires some { 1 ≤ rides }
        requires few { rides ≤ length (rounds_of self.now) }
        ensures sooner { IsSome result
            ↔ IsSooner (arrival_in (rounds_of self.now) rides stop) (arrival_in (rounds_of self.now) (rides - 1) stop) }
        ensures path { IfSome result (λ path. IsSomeAnd (mark_in (rounds_of self.now) rides stop) (λ m. path.items ≡ m.path)) }
    {
        match self.sooner_label(rides, stop) {
            Some(label) => Some(label.path()),
            None => None,
        }
    }

    /// The same stops, where they lie: a caller who only looks at them makes no copy.
    pub fn pattern_stops(&self, rides: u8, stop: StopId) -> Option<&[(StopId, StopId)]>
        requires some { 1 ≤ rides }
        requires few { rides ≤ length (rounds_of self.now) }
        ensures sooner { IsSome result
            ↔ IsSooner (arrival_in (rounds_of self.now) rides stop) (arrival_in (rounds_of self.now) (rides - 1) stop) }
        ensures path { IfSome result (λ stops. IsSomeAnd (mark_in (rounds_of self.now) rides stop) (λ m. stops.now ≡ m.path)) }
        ensures short { IfSome result (λ stops. length stops.now ≤ 8) }
    {
        match self.sooner_label(rides, stop) {
            Some(label) => Some(label.stops()),
            None => None,
        }
    }

    /// Whether the run lowered the arrival: it is sooner than in the run before since the last restart.
    pub fn changed(&self, rides: u8, stop: StopId) -> bool
        requires { rides ≤ length (rounds_of self.now) }
        ensures { IsTrue result ↔ IsSooner (arrival_in (rounds_of self.now) rides stop) (moment_in (before_of self.now) rides stop) }
    {
        is_sooner(self.arrival(rides, stop), self.before(rides, stop))
    }

    /// The stops whose arrival the run lowered.
    pub fn lowered(&self, rides: u8) -> &[StopId]
        requires { rides ≤ length (rounds_of self.now) }
        ensures { (stop : ℕ) → Contains result.now stop
            ↔ IsSooner (arrival_in (rounds_of self.now) rides stop) (moment_in (before_of self.now) rides stop) }
    {
        if rides == 0 {
            return &[];
        }
        self.rounds[rides as usize - 1].lowered()
    }

    // The label of the stop, if it is sooner than that of one ride less.
    fn sooner_label(&self, rides: u8, stop: StopId) -> Option<&Label>
        requires some { 1 ≤ rides }
        requires few { rides ≤ length (rounds_of self.now) }
        ensures sooner { IsSome result
            ↔ IsSooner (arrival_in (rounds_of self.now) rides stop) (arrival_in (rounds_of self.now) (rides - 1) stop) }
        ensures some { IfSome result (λ label. mark_in (rounds_of self.now) rides stop ≡ Some label.now) }
    {
        match self.label(rides, stop) {
            Some(label) if is_sooner(Some(label.arrival()), self.arrival(rides - 1, stop)) => {
                Some(label)
            }
            _ => None,
        }
    }

    fn before(&self, rides: u8, stop: StopId) -> Option<u32>
        requires { rides ≤ length (rounds_of self.now) }
        ensures { result ≡ moment_in (before_of self.now) rides stop }
    {
        if rides == 0 {
            return None;
        }
        self.rounds[rides as usize - 1].settled(stop)
    }

    fn label(&self, rides: u8, stop: StopId) -> Option<&Label>
        requires { rides ≤ length (rounds_of self.now) }
        ensures none { IsNone result ↔ (mark_in (rounds_of self.now) rides stop ≡ None) }
        ensures some { IfSome result (λ label. mark_in (rounds_of self.now) rides stop ≡ Some label.now) }
    {
        if rides == 0 {
            return None;
        }
        self.rounds[rides as usize - 1].label(stop)
    }
}
