//! Laws of the definitions.

ghost use Rattle.feed_faults.specs.Laws.{FirstIsReported};

/// The first fault of a feed's list is the fault that its reader reports, and the list is empty exactly if the reader reads the feed.
pub fn first_is_reported()
    ensures { FirstIsReported }
{}
