//! The labels of all stops.

ghost use Rattle.std.specs.Prelude.{◌≡◌, ℕ, ◌<◌, ◌↔◌, IfOk, IfSome, IsNone, IsSome, length, replicate, slice_set, Option, Some, None};
ghost use Rattle.stop_labels.specs.Mark.{Mark, at, arrival_of, moved};
ghost use Rattle.stop_labels.specs.Labels.{never};
ghost use Rattle.stop_labels.specs.Row.{when};

use crate::label::Label;
use crate::moment::Moment;
use std::alloc::{AllocError, Global};
use std::marker::Model;
use timetable::StopId;

/// A label of each stop, or none. When one is at each stop stands in a list of its own too, since that is looked at far more
/// often than the rides. A stop without a moment there has no label, whatever stands in its place. Once it is made it takes no memory.
#[derive(Drop)]
pub struct Labels {
    arrivals: Vec<Moment>,
    labels: Vec<Label>,
}

impl Model for Labels {
    ghost use Rattle.std.specs.Prelude.{List, Option};
    ghost use Rattle.stop_labels.specs.Mark.{Mark};
    ghost use Rattle.stop_labels.specs.Labels.{AreAgreed, with_moments};

    ghost Value = { List (Option Mark) };

    ghost view = { λ a. with_moments a.arrivals.items a.labels.items };

    ghost invariant = { λ a. AreAgreed a.arrivals.items a.labels.items };
}

// A label for each of `stops` stops, to be written over.
fn no_labels(alloc: Global, stops: usize) -> Result<Vec<Label>, AllocError>
    ensures { IfOk result (λ labels. length labels.items ≡ stops) }
{
    let mut labels = Vec::with_capacity(alloc, stops)?;
    for _ in 0..stops {
        labels.push(Label::start(0))?;
    }
    Ok(labels)
}

/// No moments, at `stops` stops.
pub fn no_moments(alloc: Global, stops: usize) -> Result<Vec<Moment>, AllocError>
    ensures { IfOk result (λ moments. moments.items ≡ replicate {A = Option ℕ} stops None) }
{
    let mut moments = Vec::with_capacity(alloc, stops)?;
    for _ in 0..stops {
        moments.push(Moment::none())?;
    }
    Ok(moments)
}

/// Takes all moments away.
pub fn clear_moments(moments: &mut [Moment])
    ensures { (stop : ℕ) → when moments.new stop ≡ None }
{
    for moment in moments.iter_mut() {
        *moment = Moment::none();
    }
}

impl Labels {
    /// No labels, at `stops` stops.
    pub fn empty(alloc: Global, stops: usize) -> Result<Self, AllocError>
        ensures { IfOk result (λ labels. labels ≡ replicate {A = Option Mark} stops None) }
    {
        Ok(Labels {
            arrivals: no_moments(alloc, stops)?,
            labels: no_labels(alloc, stops)?,
        })
    }

    /// Forgets all.
    pub fn forget(&mut self)
        ensures size { length self.new ≡ length self.old }
        ensures none { (stop : ℕ) → at self.new stop ≡ None }
    {
        clear_moments(&mut self.arrivals);
    }

    /// The label of the stop of this number; none if there is no such stop.
    pub fn label(&self, stop: usize) -> Option<&Label>
        ensures none { IsNone result ↔ (at self.now stop ≡ None) }
        ensures some { IfSome result (λ label. at self.now stop ≡ Some label.now) }
    {
        match self.arrival(stop) {
            Some(_) => Some(&self.labels[stop]),
            None => None,
        }
    }

    /// When one is at the stop of this number; none if there is no such stop.
    pub fn arrival(&self, stop: usize) -> Option<u32>
        ensures value { result ≡ arrival_of (at self.now stop) }
        ensures early { IfSome result (λ m. m < never) }
    {
        match self.arrivals.get(stop) {
            Some(moment) => moment.get(),
            None => None,
        }
    }

    /// When one is at the stop of this number, where it lies.
    pub fn moment(&self, stop: usize) -> &Moment
        requires { stop < length self.now }
        ensures { result.now ≡ arrival_of (at self.now stop) }
    {
        &self.arrivals[stop]
    }

    /// Puts the label at the stop of this number, at another moment and with one ride more if there is one.
    pub fn put(&mut self, stop: usize, label: &Label, arrival: u32, ride: Option<(StopId, StopId)>)
        requires known { stop < length self.old }
        requires early { arrival < never }
        requires short { IsSome ride → length label.now.path < 8 }
        ensures { self.new ≡ slice_set self.old stop (Some (moved label.now arrival ride)) }
    {
        self.arrivals[stop] = Moment::of(Some(arrival));
        self.labels[stop].set(label, arrival, ride);
    }
}
