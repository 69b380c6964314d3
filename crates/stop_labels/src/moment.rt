//! Moments that may be missing.

ghost use Rattle.std.specs.Prelude.{◌≡◌, ◌<◌, ◌↔◌, IfSome, IsTrue, None};
ghost use Rattle.timetable.specs.Front.{IsSooner};
ghost use Rattle.stop_labels.specs.Labels.{never};
ghost use Rattle.stop_labels.specs.Row.{ByThen};

use std::marker::Model;

/// Stands for none: nobody is anywhere so late.
const NEVER: u32 = u32::MAX;

/// When one is at a stop, or none. It takes four bytes, half of those of an `Option<u32>`.
#[derive(Drop)]
pub struct Moment {
    number: u32,
}

impl Model for Moment {
    ghost use Rattle.std.specs.Prelude.{ℕ, Option};
    ghost use Rattle.stop_labels.specs.Labels.{moment_of};

    ghost Value = { Option ℕ };

    ghost view = { λ a. moment_of a.number };
}

impl Moment {
    /// None.
    pub fn none() -> Moment
        ensures { result ≡ None }
    {
        Moment { number: NEVER }
    }

    /// This moment, if there is one.
    pub fn of(moment: Option<u32>) -> Moment
        requires { IfSome moment (λ m. m < never) }
        ensures { result ≡ moment }
    {
        match moment {
            Some(number) => Moment { number },
            None => Moment::none(),
        }
    }

    /// The moment, if there is one.
    pub fn get(&self) -> Option<u32>
        ensures value { result ≡ self.now }
        ensures early { IfSome result (λ m. m < never) }
    {
        if self.number < NEVER {
            Some(self.number)
        } else {
            None
        }
    }

    /// Whether it is there, and no later than `latest`. One comparison says so, as none is later than any moment.
    pub fn is_by(&self, latest: u32) -> bool
        requires { latest < never }
        ensures { IsTrue result ↔ ByThen self.now latest }
    {
        self.number <= latest
    }

    /// Whether it is sooner than the other, with none later than any moment.
    pub fn is_sooner(&self, other: &Moment) -> bool
        ensures { IsTrue result ↔ IsSooner self.now other.now }
    {
        self.number < other.number
    }
}
