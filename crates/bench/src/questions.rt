//! Random questions.

ghost use Rattle.std.specs.Prelude.{◌≡◌, ◌<◌, ◌≤◌, ◌⊎◌};

use rand::RngExt;
use rand_core::SeedableRng;
use rand_pcg::Pcg32;
use timetable::StopId;

/// The earliest moment to leave at: 05:00:00 of the first covered day.
const EARLIEST: u32 = 18_000;

/// The end of the moments to leave at: 22:00:00 of the first covered day.
const LATEST: u32 = 79_200;

/// From which stop to which other one, and at which moment, in seconds from the start of the first covered day.
#[derive(Clone, Copy, Debug, PartialEq, Eq)]
pub struct Question {
    pub from: StopId,
    pub to: StopId,
    pub depart: u32,
}

/// Questions without an end. The same seed gives the same questions.
#[derive(Drop)]
pub struct Questions {
    random: Pcg32,
    sources: u32,
    stops: u32,
    ghost any: { 1 ≤ sources },
    ghost within: { sources ≤ stops },
    ghost some: { 2 ≤ stops },
    ghost few: { stops ≤ 1_000_000 },
}

impl Questions {
    ghost use Rattle.std.specs.Prelude.{IfSome, IfNone};
    ghost use Rattle.bench.specs.Asked.{sources_of, stops_of, IsAsked};

    /// Questions from the first `sources` stops, between `stops` stops. None if there are fewer than two stops, or more than a timetable
    /// has, or no sources, or more than stops.
    pub fn new(seed: u32, sources: usize, stops: usize) -> Option<Questions>
        ensures sources { IfSome result (λ questions. sources_of questions ≡ sources) }
        ensures stops { IfSome result (λ questions. stops_of questions ≡ stops) }
        ensures none { IfNone result ((stops < 2) ⊎ (1_000_000 < stops) ⊎ (sources ≡ 0) ⊎ (stops < sources)) }
    {
        if stops < 2 || stops > 1_000_000 || sources == 0 || sources > stops {
            return None;
        }
        Some(Questions {
            random: Pcg32::seed_from_u64(u64::from(seed)),
            sources: sources as u32,
            stops: stops as u32,
        })
    }

    /// The next question: two different stops, and a moment from 05:00:00 to before 22:00:00.
    pub fn ask(&mut self) -> Question
        ensures sources { sources_of self.new ≡ sources_of self.old }
        ensures stops { stops_of self.new ≡ stops_of self.old }
        ensures asked { IsAsked (sources_of self.old) (stops_of self.old) result }
    {
        let from = self.random.random_range(0..self.sources);
        let other = self.random.random_range(0..self.stops - 1);
        let to = if other < from { other } else { other + 1 };
        Question {
            from: StopId::new(from),
            to: StopId::new(to),
            depart: self.random.random_range(EARLIEST..LATEST),
        }
    }
}
