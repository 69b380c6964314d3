//! Answers of the journey planner as lines: moments, rides and walks, journeys, and all of an answer; and reports of a store.
#![tactic(auto)]

mod answer;
mod audit;
mod moment;
mod printing;
mod reach;
mod report;
mod stage;
mod timed;

pub use answer::{Answer, Point};
pub use audit::{Audit, Differing};
pub use moment::{DayTime, ShownDate, day_time};
pub use printing::{PrintFault, print, print_bytes};
pub use reach::{Reach, ReachedStop};
pub use report::{Built, Report};
pub use stage::Stage;
pub use timed::{TimedStop, TimedStops};
