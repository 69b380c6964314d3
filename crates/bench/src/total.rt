//! What the answers add up to.

ghost use Rattle.std.specs.Prelude.{◌≡◌};
ghost use Rattle.bench.specs.Times.{times_faster as times_faster_of};

use std::fmt;

/// How many questions had an answer, and the sum of the arrivals, in seconds from the start of the first covered day.
/// Shown as `ANSWERED SUM`.
#[derive(Clone, Copy, Debug, Default, PartialEq, Eq)]
pub struct Total {
    pub answered: u64,
    pub arrivals: u64,
}

impl Total {
    /// Adds an answer: when it arrives, if there is a way at all. At 2^64 - 1 the numbers stay.
    pub fn add(&mut self, arrival: Option<u32>) {
        if let Some(arrival) = arrival {
            self.answered = self.answered.saturating_add(1);
            self.arrivals = self.arrivals.saturating_add(u64::from(arrival));
        }
    }
}

impl fmt::Display for Total {
    fn fmt<W: fmt::Write>(&self, f: &mut fmt::Formatter<W>) -> fmt::Result {
        write!(f, "{} {}", self.answered, self.arrivals)
    }
}

/// How many times as long one of the slow questions took as one of the fast ones, in whole times. `slow_count` questions took `slow`
/// nanoseconds, and `fast_count` questions `fast`. No time counts as one nanosecond.
pub fn times_faster(slow: u64, slow_count: u32, fast: u64, fast_count: u32) -> u64
    ensures { result ≡ times_faster_of slow slow_count fast fast_count }
{
    let slow_times = slow.saturating_mul(u64::from(fast_count));
    let fast_times = fast.saturating_mul(u64::from(slow_count));
    slow_times / fast_times.max(1)
}
