//! What the program answers.

ghost use Rattle.std.specs.Prelude.{Some};
ghost use Rattle.std.specs.Fmt.{WritesOnOk};
ghost use Rattle.answer_lines.specs.Printed.{answer_text, point_text, points_text};

use crate::moment::DayTime;
use crate::stage::Stage;
use std::fmt;

/// A best journey: how many rides it takes, when it arrives, and its rides and walks if they are wanted. Shown as
/// `rides N arrive DATE TIME`, with a line below for each ride and walk.
#[derive(Drop)]
pub struct Point {
    pub rides: u8,
    pub at: DayTime,
    pub stages: Vec<Stage>,
}

/// An answer, shown as the program prints it.
#[derive(Drop)]
pub enum Answer {
    NoRide,
    Arrive(DayTime),
    /// The best journeys, by rising rides; none if there is no journey.
    Points(Vec<Point>),
}

impl fmt::Display for Point {
    ghost output = { λ point. Some (point_text point) };

    fn fmt<W: fmt::Write>(&self, f: &mut fmt::Formatter<W>) -> fmt::Result {
        write!(f, "rides {} arrive {}", self.rides, self.at)?;
        for stage in &self.stages {
            write!(f, "\n{stage}")?;
        }
        Ok(())
    }
}

impl fmt::Display for Answer {
    ghost output = { λ answer. Some (answer_text answer) };

    fn fmt<W: fmt::Write>(&self, f: &mut fmt::Formatter<W>) -> fmt::Result {
        match self {
            Answer::NoRide => write!(f, "no ride"),
            Answer::Arrive(at) => write!(f, "arrive {at}"),
            Answer::Points(points) => write_points(f, points),
        }
    }
}

// A line for each point and each of its stages, without a line's end after the last.
fn write_points<W: fmt::Write>(f: &mut fmt::Formatter<W>, points: &[Point]) -> fmt::Result
    ensures { WritesOnOk W.write_str_gives f.old result (points_text points.now) f.new }
{
    let Some((first, others)) = points.split_first() else {
        return write!(f, "no journey");
    };
    write!(f, "{first}")?;
    for point in others {
        write!(f, "\n{point}")?;
    }
    Ok(())
}
