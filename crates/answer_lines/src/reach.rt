//! Where one can be, as the program prints it.

ghost use Rattle.std.specs.Prelude.{Some};
ghost use Rattle.answer_lines.specs.Reaches.{reach_text, reached_text};

use crate::moment::DayTime;
use shown_ids::Shown;
use std::fmt;

/// A stop that one reaches, shown as `ID arrive DATE TIME rides N`.
#[derive(Clone, Copy)]
pub struct ReachedStop<'a> {
    /// The id of the stop.
    pub stop: &'a str,
    /// The earliest arrival.
    pub arrives: DayTime,
    /// The fewest rides with which one arrives then.
    pub rides: u8,
    /// How many seconds one is on the way, with the wait for the first ride.
    pub seconds: u32,
}

/// The stops that one reaches who leaves a stop, shown as a line for each, with its end.
#[derive(Drop)]
pub struct Reach<'a> {
    /// The id of the stop that one leaves.
    pub from: &'a str,
    /// When one leaves it.
    pub departs: DayTime,
    /// By arrival, then in their order in the feed.
    pub stops: Vec<ReachedStop<'a>>,
}

impl fmt::Display for ReachedStop<'_> {
    ghost output = { λ reached. Some (reached_text reached) };

    #[tactic(auto, unfolding(crate::specs::Reaches::reached_text))]
    fn fmt<W: fmt::Write>(&self, f: &mut fmt::Formatter<W>) -> fmt::Result {
        write!(
            f,
            "{} arrive {} rides {}",
            Shown(self.stop),
            self.arrives,
            self.rides
        )
    }
}

impl fmt::Display for Reach<'_> {
    ghost output = { λ reach. Some (reach_text reach) };

    fn fmt<W: fmt::Write>(&self, f: &mut fmt::Formatter<W>) -> fmt::Result {
        for reached in &self.stops {
            writeln!(f, "{reached}")?;
        }
        Ok(())
    }
}
