//! How long one is on the way to stops, as the program prints it.

ghost use Rattle.std.specs.Prelude.{Some};
ghost use Rattle.answer_lines.specs.Timed.{seconds_text, times_text, timed_text};

use crate::moment::DayTime;
use shown_ids::Shown;
use std::fmt;

// Seconds, if there are any, shown as their number or as `none`.
#[derive(Clone, Copy)]
struct Seconds(Option<u32>);

/// The seconds from leaving until one is at a stop, over the seconds of a window at which one may leave. Shown as
/// `ID least S median S greatest S`, with `none` for a number that isn't there.
#[derive(Clone, Copy)]
pub struct TimedStop<'a> {
    /// The id of the stop.
    pub stop: &'a str,
    /// The least of them.
    pub least: u32,
    /// The lower median; none if one doesn't get there at half of the seconds.
    pub median: Option<u32>,
    /// The greatest; none if one doesn't get there at some second.
    pub greatest: Option<u32>,
}

/// How long one is on the way who leaves a stop within a window, shown as a line for each stop, with its end.
#[derive(Drop)]
pub struct TimedStops<'a> {
    /// The id of the stop that one leaves.
    pub from: &'a str,
    /// The first second of the window.
    pub first: DayTime,
    /// The last second of the window.
    pub last: DayTime,
    /// In their order in the feed.
    pub stops: Vec<TimedStop<'a>>,
}

impl fmt::Display for Seconds {
    ghost output = { λ seconds. Some (seconds_text seconds.0) };

    fn fmt<W: fmt::Write>(&self, f: &mut fmt::Formatter<W>) -> fmt::Result {
        match self.0 {
            None => write!(f, "none"),
            Some(seconds) => write!(f, "{seconds}"),
        }
    }
}

impl fmt::Display for TimedStop<'_> {
    ghost output = { λ timed. Some (timed_text timed) };

    #[tactic(auto, unfolding(crate::specs::Timed::timed_text))]
    fn fmt<W: fmt::Write>(&self, f: &mut fmt::Formatter<W>) -> fmt::Result {
        write!(
            f,
            "{} least {} median {} greatest {}",
            Shown(self.stop),
            self.least,
            Seconds(self.median),
            Seconds(self.greatest)
        )
    }
}

impl fmt::Display for TimedStops<'_> {
    ghost output = { λ times. Some (times_text times) };

    fn fmt<W: fmt::Write>(&self, f: &mut fmt::Formatter<W>) -> fmt::Result {
        for timed in &self.stops {
            writeln!(f, "{timed}")?;
        }
        Ok(())
    }
}
