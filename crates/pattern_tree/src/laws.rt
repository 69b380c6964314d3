//! Laws of pattern trees. The function that states one does nothing.

ghost use Rattle.pattern_tree.specs.Finished.{FinishedIsWithin};

/// Each stop of a finished tree is one of its timetable.
pub fn finished_is_within()
    ensures { FinishedIsWithin }
{}
