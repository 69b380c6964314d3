//! When one may leave, and how many connections are reported.

ghost use Rattle.told_connections.specs.Times.{AreTimesOf, IsLastMoment};

use feed_basis::Basis;
use questions::{Question, Until, Within};

/// When one may leave, from the moment of a question to its last one, each none if it is of a day that isn't covered; and how many
/// connections are reported at most.
#[derive(Clone, Copy)]
pub struct Times {
    pub moment: Option<u32>,
    pub until: Option<u32>,
    pub next: Option<u16>,
}

// The moment of the last time to leave at: without one it is the last covered moment.
fn last_moment(basis: &Basis, until: Option<Until>) -> Option<u32>
    ensures { IsLastMoment basis.now until result }
{
    match until {
        Some(last) => basis.moment(last.day, last.seconds),
        None => Some(basis.timetable().horizon()),
    }
}

/// The times of a question that asks for connections. Without a last time to leave at, its last moment is the last covered one.
pub fn times_of(basis: &Basis, question: &Question<'_>, within: Within) -> Times
    ensures { AreTimesOf basis.now question.now within result }
{
    Times {
        moment: basis.moment(question.day, question.seconds),
        until: last_moment(basis, within.until),
        next: within.next,
    }
}
