//! What holds of all boards. Nothing is run.

ghost use Rattle.store_excerpt.specs.Laws.{WholeIsComplete};

/// If the trees that a question needs are there and whole, they are complete for journeys of as many rides as the store is for. An answer
/// from them is then exact, whatever the other trees are.
pub fn whole_is_complete()
    ensures { WholeIsComplete }
{}
