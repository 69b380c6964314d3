//! What follows if an audit finds no difference. It holds of every timetable, and the function that states it does nothing.

ghost use Rattle.auditing.specs.Laws.{NoDifferenceIsExact};

use timetable::Timetable;

/// If the answers from a tree agree at each event of its source, they are exact at each moment.
pub fn no_difference_is_exact(_table: &Timetable)
    ensures { NoDifferenceIsExact _table.now }
{}
