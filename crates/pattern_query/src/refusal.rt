//! Why a question has no answer.

ghost use Rattle.std.specs.Prelude.{Some};
ghost use Rattle.pattern_query.specs.Refusals.{refusal_text};

use shown_ids::Shown;
use std::fmt;

/// Why a question has no answer, shown by the code and the name that users read, and an id so that it stays on its line.
#[derive(Clone, Copy, Debug, PartialEq, Eq)]
pub enum Refusal<'a> {
    /// No stop and no station has the id.
    UnknownStop(&'a str),
    /// The moment isn't within the covered days.
    NotCovered,
    /// There is no tree of the stop that has this id.
    NotStored(&'a str),
}

impl fmt::Display for Refusal<'_> {
    ghost output = { λ refusal. Some (refusal_text refusal) };

    fn fmt<W: fmt::Write>(&self, f: &mut fmt::Formatter<W>) -> fmt::Result {
        match self {
            Refusal::UnknownStop(id) => write!(f, "Q1 UnknownStop {}", Shown(id)),
            Refusal::NotCovered => write!(f, "Q2 NotCovered"),
            Refusal::NotStored(id) => write!(f, "Q3 NotStored {}", Shown(id)),
        }
    }
}
