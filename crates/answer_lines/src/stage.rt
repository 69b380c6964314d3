//! Rides and walks as lines.

ghost use Rattle.std.specs.Prelude.{Some};
ghost use Rattle.answer_lines.specs.Printed.{stage_text};

use crate::moment::DayTime;
use gtfs_tables::Id;
use shown_ids::Shown;
use std::fmt;
use timetable::Leg;

/// A ride or a walk of a journey, with the ids of its stops. Shown as the program prints it: `  ride TRIP FROM DATE TIME TO DATE
/// TIME` or `  walk FROM TO DATE TIME`.
#[derive(Drop)]
pub enum Stage {
    Ride {
        /// Which ride of the timetable it is. It isn't shown.
        leg: Leg,
        trip: Id,
        from: Id,
        departs: DayTime,
        to: Id,
        arrives: DayTime,
    },
    Walk {
        from: Id,
        /// When it begins. It isn't shown.
        departs: DayTime,
        to: Id,
        arrives: DayTime,
    },
}

impl fmt::Display for Stage {
    ghost output = { λ stage. Some (stage_text stage) };

    fn fmt<W: fmt::Write>(&self, f: &mut fmt::Formatter<W>) -> fmt::Result {
        match self {
            Stage::Ride {
                trip,
                from,
                departs,
                to,
                arrives,
                ..
            } => write!(
                f,
                "  ride {} {} {departs} {} {arrives}",
                Shown(trip.as_str()),
                Shown(from.as_str()),
                Shown(to.as_str())
            ),
            Stage::Walk {
                from,
                to,
                arrives,
                ..
            } => write!(
                f,
                "  walk {} {} {arrives}",
                Shown(from.as_str()),
                Shown(to.as_str())
            ),
        }
    }
}
