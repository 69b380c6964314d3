//! When one is at a stop by rides, as a step function of when one leaves.

ghost use Rattle.std.specs.Prelude.{◌≡◌, ◌+◌, ◌-◌, ◌^◌, ◌<◌, ◌≤◌, [], ◌∷◌, ◌++◌, OnOk};
ghost use Rattle.timetable.specs.Journeys.{IsLeast};
ghost use Rattle.reaching.specs.Steps.{AreSteps, arrival_at, is_some_by, is_within, tally};

use std::alloc::{AllocError, Global};
use std::marker::Model;

/// One who leaves by `until` is there at `arrival`, if no later step of the list says otherwise. Both are moments, in seconds from the
/// start of the first covered day.
#[derive(Clone, Copy)]
struct Step {
    until: u32,
    arrival: u32,
}

/// The steps of one stop, from the last departures to the first.
#[derive(Drop)]
pub(crate) struct Steps {
    list: Vec<Step>,
}

impl Model for Steps {
    ghost use Rattle.std.specs.Prelude.{List};
    ghost use Rattle.reaching.specs.declared.steps.Step.{Step as StepData};

    ghost Value = { List StepData };

    ghost view = { λ a. a.list.items };
}

// Whether there is a number of seconds, and it is no more than this one.
fn is_some_by(number: Option<u32>, most: u32) -> bool
    ensures { result ≡ is_some_by number most }
{
    match number {
        Some(number) => number <= most,
        None => false,
    }
}

// At how many seconds from `from` to before `end` one leaves no more than `seconds` before the arrival.
fn seconds_by(arrival: Option<u32>, seconds: u32, from: u64, end: u64) -> u64
    requires { from ≤ end }
    ensures { result ≡ tally (λ d. is_some_by arrival (d + seconds)) from (end - from) }
{
    match arrival {
        Some(arrival) => end.saturating_sub(from.max(u64::from(arrival.saturating_sub(seconds)))),
        None => 0,
    }
}

impl Steps {
    /// No steps: by rides one is never there.
    pub(crate) fn none(alloc: Global) -> Self
        ensures { result ≡ [] }
    {
        Steps {
            list: Vec::new(alloc),
        }
    }

    /// Adds a step. It fails only if memory runs out.
    pub(crate) fn push(&mut self, until: u32, arrival: u32) -> Result<(), AllocError>
        ensures items { OnOk result (self.new ≡ self.old ++ record { until = until; arrival = arrival } ∷ []) }
        // As each number of this type.
        ensures small { arrival < 2 ^ 32 }
    {
        self.list.push(Step { until, arrival })?;
        Ok(())
    }

    // At how many seconds from `first` to `last` one is there by rides within `seconds`.
    fn ridden_within(&self, first: u32, last: u32, seconds: u32) -> u64
        requires some { first ≤ last }
        requires steps { AreSteps first last self.now }
        ensures { result ≡ tally (λ d. is_some_by (arrival_at self.now d) (d + seconds)) first (last + 1 - first) }
    {
        let mut total = 0;
        let mut end = u64::from(last) + 1;
        let mut arrival = None;
        for step in &self.list {
            let next = u64::from(step.until) + 1;
            total += seconds_by(arrival, seconds, next, end);
            end = next;
            arrival = Some(step.arrival);
        }
        total + seconds_by(arrival, seconds, u64::from(first), end)
    }

    // At how many seconds from `first` to `last` one is there within `seconds`, by rides or by a walk of `walk` seconds.
    fn count_within(&self, walk: Option<u32>, first: u32, last: u32, seconds: u32) -> u64
        requires some { first ≤ last }
        requires steps { AreSteps first last self.now }
        ensures { result ≡ tally (is_within walk self.now seconds) first (last + 1 - first) }
    {
        if is_some_by(walk, seconds) {
            return u64::from(last) + 1 - u64::from(first);
        }
        self.ridden_within(first, last, seconds)
    }

    /// The least number of seconds within which one is there at `enough` of the seconds of departure from `first` to `last`. One goes by
    /// rides, or by a walk of `walk` seconds. None: at fewer of them one gets there at all.
    ///
    /// It halves the range of the answer again and again, and so looks at each step some 32 times.
    pub(crate) fn rank(&self, walk: Option<u32>, first: u32, last: u32, enough: u64) -> Option<u32>
        requires some { first ≤ last }
        requires steps { AreSteps first last self.now }
        ensures { IsLeast (λ x. enough ≤ tally (is_within walk self.now x) first (last + 1 - first)) result }
    {
        let mut low = 0;
        let mut high = walk.unwrap_or(u32::MAX);
        if self.count_within(walk, first, last, high) < enough {
            return None;
        }
        while low < high {
            let middle = low + (high - low) / 2;
            if self.count_within(walk, first, last, middle) < enough {
                low = middle + 1;
            } else {
                high = middle;
            }
        }
        Some(high)
    }
}
