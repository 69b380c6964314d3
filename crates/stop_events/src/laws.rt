//! Laws of the events of a stop. Each holds of every timetable, and the function that states it does nothing.

ghost use Rattle.stop_events.specs.Laws.{BetweenEvents, AfterTheLastEvent};

use timetable::Timetable;

/// Between two events nothing changes. With no event from a departure on up to a later one, a journey of one ride or more
/// at the first is one at the second, with the same arrival.
pub fn between_events(_table: &Timetable)
    ensures { BetweenEvents _table.now }
{}

/// With no event from a departure on, there is no journey of one ride or more.
pub fn after_the_last_event(_table: &Timetable)
    ensures { AfterTheLastEvent _table.now }
{}
