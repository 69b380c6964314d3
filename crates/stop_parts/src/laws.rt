//! What holds of all parts. Nothing is run.

ghost use Rattle.stop_parts.specs.Laws.{EachOnce, HasAll};

/// Of N parts each stop is of exactly one.
pub fn each_once()
    ensures { EachOnce }
{}

/// The whole has each stop.
pub fn whole_has_all()
    ensures { HasAll }
{}
