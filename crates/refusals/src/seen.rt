//! How a call went.

use std::fmt;

/// How a call went to which memory may have been refused.
#[derive(Clone, Copy, Debug, PartialEq, Eq)]
pub enum Seen {
    /// It answered rightly at once.
    Right,
    /// It answered this fault, and this was looked at and stood then. Made once more, it answered rightly.
    Again(&'static str, &'static str),
    /// This wasn't as it should be.
    Wrong(&'static str),
}

impl Seen {
    /// Right, or else this wasn't as it should be.
    pub fn right_if(is_right: bool, what: &'static str) -> Seen {
        if is_right {
            Seen::Right
        } else {
            Seen::Wrong(what)
        }
    }

    /// The fault, after which this stood, if the call was right when it was made once more.
    pub fn again(fault: &'static str, stood: &'static str, is_right: bool) -> Seen {
        if is_right {
            Seen::Again(fault, stood)
        } else {
            Seen::Wrong(fault)
        }
    }

    /// This, after what was seen before: what was wrong stays, and else what was refused.
    pub fn after(self, before: Seen) -> Seen {
        match (before, self) {
            (Seen::Right, _) | (Seen::Again(_, _), Seen::Wrong(_)) => self,
            _ => before,
        }
    }
}

impl fmt::Display for Seen {
    fn fmt<W: fmt::Write>(&self, f: &mut fmt::Formatter<W>) -> fmt::Result {
        match self {
            Seen::Right => write!(f, "right"),
            Seen::Again(fault, stood) => write!(f, "{fault}, {stood}, then right"),
            Seen::Wrong(what) => write!(f, "wrong: {what}"),
        }
    }
}
