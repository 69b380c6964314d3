//! Labels of all stops, and which of them were lowered.

ghost use Rattle.std.specs.Prelude.{◌≡◌, ℕ, ◌+◌, ◌<◌, ◌≤◌, ◌↔◌, ◌⊎◌, ◌++◌, ◌∷◌, [], length, slice_set, Option, Some, None, IfOk, IfSome, IsNone, IsSome, IsTrue, vec_len, vec_capacity};
ghost use Rattle.std.specs.List.{Contains};
ghost use Rattle.timetable.specs.Front.{IsSooner};
ghost use Rattle.stop_labels.specs.Labels.{never};
ghost use Rattle.stop_labels.specs.Mark.{By, at, arrival_of, is_by, moved, ridden_to};
ghost use Rattle.stop_labels.specs.Row.{arrivals_of, settled_of, lowered_in, when};

use crate::label::Label;
use crate::labels::{Labels, clear_moments, no_moments};
use crate::moment::Moment;
use std::alloc::{AllocError, Global};
use std::marker::Model;
use timetable::StopId;

/// The labels of all stops. It remembers when one was at each stop as it was last settled, and lists the stops whose labels
/// were lowered since then. Once it is made it takes no memory.
#[derive(Drop)]
pub struct Row {
    labels: Labels,
    settled: Vec<Moment>,
    lowered: Vec<StopId>,
}

impl Model for Row {
    ghost use Rattle.std.specs.Prelude.{vec_capacity};
    ghost use Rattle.stop_labels.specs.Row.{RowData, IsRow};

    ghost Value = { RowData };

    ghost view = { λ a. record { marks = a.labels; settled = a.settled.items } };

    ghost invariant = { λ a. IsRow a.labels a.settled.items a.lowered.items (vec_capacity a.lowered) };
}

/// Whether this moment is sooner than the one before.
pub fn is_sooner(moment: Option<u32>, before: Option<u32>) -> bool
    ensures { IsTrue result ↔ IsSooner moment before }
{
    match (moment, before) {
        (Some(now), Some(before)) => now < before,
        (Some(_), None) => true,
        (None, _) => false,
    }
}

// Puts the stop at the end of the list, which has room.
fn list(stop: StopId, listed: &mut Vec<StopId>)
    requires { vec_len listed.old < vec_capacity listed.old }
    ensures items { listed.new.items ≡ listed.old.items ++ stop ∷ [] }
    ensures room { vec_capacity listed.old ≤ vec_capacity listed.new }
{
    let pushed = listed.push(stop);
    pushed.unwrap();
}

// Settles the stops that are listed.
fn settle(labels: &Labels, listed: &[StopId], settled: &mut [Moment])
    requires size { length settled.old ≡ length labels.now }
    requires known { (p : ℕ) → Contains listed.now p → p < length labels.now }
    ensures { (p : ℕ) → (when settled.new p ≡ arrival_of (at labels.now p))
        ⊎ (¬ Contains listed.now p × (when settled.new p ≡ when settled.old p)) }
{
    for stop in listed {
        settled[stop.number()] = Moment::of(labels.arrival(stop.number()));
    }
}

impl Row {
    /// No labels, at `stops` stops.
    pub fn empty(alloc: Global, stops: usize) -> Result<Self, AllocError>
        ensures size { IfOk result (λ row. length row.marks ≡ stops) }
        ensures none { IfOk result (λ row. (stop : ℕ) → at row.marks stop ≡ None) }
        ensures fresh { IfOk result (λ row. (stop : ℕ) → settled_of row stop ≡ None) }
    {
        Ok(Row {
            lowered: Vec::with_capacity(alloc, stops)?,
            settled: no_moments(alloc, stops)?,
            labels: Labels::empty(alloc, stops)?,
        })
    }

    /// Forgets all.
    pub fn forget(&mut self)
        ensures size { length self.new.marks ≡ length self.old.marks }
        ensures none { (stop : ℕ) → at self.new.marks stop ≡ None }
    {
        self.labels.forget();
        clear_moments(&mut self.settled);
        self.lowered.clear();
    }

    /// Settles the labels as they are: none is lowered from then on.
    pub fn settle(&mut self)
        ensures marks { self.new.marks ≡ self.old.marks }
        ensures settled { (stop : ℕ) → settled_of self.new stop ≡ arrivals_of self.old stop }
    {
        settle(&self.labels, &self.lowered, &mut self.settled);
        self.lowered.clear();
    }

    /// The label of the stop; none if there is no such stop.
    pub fn label(&self, stop: StopId) -> Option<&Label>
        ensures none { IsNone result ↔ (at self.now.marks stop ≡ None) }
        ensures some { IfSome result (λ label. at self.now.marks stop ≡ Some label.now) }
    {
        self.labels.label(stop.number())
    }

    /// When one is at the stop; none if there is no such stop.
    pub fn arrival(&self, stop: StopId) -> Option<u32>
        ensures { result ≡ arrivals_of self.now stop }
    {
        self.labels.arrival(stop.number())
    }

    /// When one was at the stop as the row was last settled.
    pub fn settled(&self, stop: StopId) -> Option<u32>
        ensures { result ≡ settled_of self.now stop }
    {
        if stop.number() < self.settled.len() {
            self.settled[stop.number()].get()
        } else {
            None
        }
    }

    /// The stops whose labels were lowered since the row was last settled.
    pub fn lowered(&self) -> &[StopId]
        ensures others { (p : ℕ) → Contains result.now p ⊎ (arrivals_of self.now p ≡ settled_of self.now p) }
        ensures sooner { (p : ℕ) → Contains result.now p → IsSooner (arrivals_of self.now p) (settled_of self.now p) }
    {
        &self.lowered
    }

    /// Whether there is a label of the moment or an earlier one at the stop.
    pub fn is_by(&self, stop: StopId, moment: u32) -> bool
        requires known { stop < length self.now.marks }
        requires early { moment < never }
        ensures value { result ≡ is_by (at self.now.marks stop) moment }
        ensures by { IsTrue result ↔ By (at self.now.marks stop) moment }
    {
        self.labels.moment(stop.number()).is_by(moment)
    }

    /// Whether one is at the stop sooner than in the other row.
    pub fn is_sooner(&self, other: &Row, stop: StopId) -> bool
        requires known { stop < length self.now.marks }
        requires other { stop < length other.now.marks }
        ensures { IsTrue result ↔ IsSooner (arrivals_of self.now stop) (arrivals_of other.now stop) }
    {
        let there = other.labels.moment(stop.number());
        self.labels.moment(stop.number()).is_sooner(there)
    }

    // Puts the label at the stop, at a moment earlier than any there, and with one ride more if there is one.
    #[inline(always)]
    fn put(&mut self, stop: StopId, label: &Label, arrival: u32, ride: Option<(StopId, StopId)>)
        requires known { stop < length self.old.marks }
        requires early { arrival < never }
        requires sooner { ¬ By (at self.old.marks stop) arrival }
        requires short { IsSome ride → length label.now.path < 8 }
        ensures marks { self.new.marks ≡ slice_set self.old.marks stop (Some (moved label.now arrival ride)) }
        ensures settled { self.new.settled ≡ self.old.settled }
    {
        let number = stop.number();
        if !self.labels.moment(number).is_sooner(&self.settled[number]) {
            list(stop, &mut self.lowered);
        }
        self.labels.put(number, label, arrival, ride);
    }

    /// Puts the label at the stop, unless one there is as early. Nothing is copied if one is.
    pub fn lower_to(&mut self, stop: StopId, label: &Label)
        requires known { stop < length self.old.marks }
        requires early { label.now.arrival < never }
        ensures { self.new ≡ lowered_in self.old stop label.now }
    {
        if !self.is_by(stop, label.arrival()) {
            self.put(stop, label, label.arrival(), None);
        }
    }

    /// Puts the label at the stop, `seconds` seconds later, unless one there is as early. Nothing is copied if one is.
    pub fn lower_later(&mut self, stop: StopId, label: &Label, seconds: u32)
        requires known { stop < length self.old.marks }
        requires early { label.now.arrival + seconds < never }
        ensures { self.new ≡ lowered_in self.old stop (record { arrival = label.now.arrival + seconds; path = label.now.path }) }
    {
        if !self.is_by(stop, label.arrival() + seconds) {
            self.put(stop, label, label.arrival() + seconds, None);
        }
    }

    /// Puts the label at `to` of one who boards at `from` with the label there and is at `to` at the moment of arrival, unless one there is
    /// as early. Nothing is copied if one is.
    pub fn lower_ridden(&mut self, from: StopId, label: &Label, to: StopId, arrival: u32)
        requires known { to < length self.old.marks }
        requires early { arrival < never }
        requires short { length label.now.path ≤ 7 }
        ensures { self.new ≡ lowered_in self.old to (ridden_to from label.now to arrival) }
    {
        if !self.is_by(to, arrival) {
            self.put(to, label, arrival, Some((from, to)));
        }
    }
}
