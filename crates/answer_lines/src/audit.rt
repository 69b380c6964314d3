//! What an audit of a stored tree came to.

ghost use Rattle.std.specs.Prelude.{◌≡◌, Some};
ghost use Rattle.answer_lines.specs.Audits.{audit_status, audit_text};

use crate::moment::DayTime;
use shown_ids::Shown;
use std::fmt;

/// Where the answers from a stored tree differ first from those of the timetable.
#[derive(Clone, Copy)]
pub struct Differing<'a> {
    /// The id of the stop to go to.
    pub to: &'a str,
    /// When one leaves.
    pub depart: DayTime,
}

/// What an audit of a stop's tree came to. Shown as `audit ID ok`, or `audit ID differs TARGET DATE TIME`, without a line's end.
#[derive(Clone, Copy)]
pub struct Audit<'a> {
    /// The id of the stop.
    pub from: &'a str,
    /// None if all answers agree.
    pub differing: Option<Differing<'a>>,
}

impl Audit<'_> {
    /// The status to end with: 0 if all answers agree, 5 if one differs.
    pub fn status(&self) -> u8
        ensures { result ≡ audit_status self.now }
    {
        match self.differing {
            None => 0,
            Some(_) => 5,
        }
    }
}

impl fmt::Display for Audit<'_> {
    ghost output = { λ audit. Some (audit_text audit) };

    fn fmt<W: fmt::Write>(&self, f: &mut fmt::Formatter<W>) -> fmt::Result {
        let from = Shown(self.from);
        match &self.differing {
            None => write!(f, "audit {from} ok"),
            Some(at) => write!(f, "audit {from} differs {} {}", Shown(at.to), at.depart),
        }
    }
}
