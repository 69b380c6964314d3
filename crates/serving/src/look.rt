//! The trees of one look at a board, as connections are asked of them.

use board::View;
use pattern_query::{Patterns, Trees};
use timetable::StopId;

// One look at a board.
pub(crate) struct Look {
    pub(crate) view: View,
}

impl Trees for Look {
    ghost use Rattle.timetable.specs.Table.{stops_of};
    ghost use Rattle.planner.specs.Asking.{held_after};

    ghost held = { λ look. held_after (stops_of look.view.origin.form.table) look.view.told.list };

    fn patterns(&self, source: StopId) -> Option<&Patterns> {
        self.view.patterns(source)
    }
}
