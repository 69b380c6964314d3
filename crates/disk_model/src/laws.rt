//! Laws of the definitions that the contracts cite. Nothing is run.

ghost use Rattle.disk_model.specs.Laws.{LeavesTheReads, WritesAddOutcomes, CutsAddOutcomes, TornReadsAreOutcomes, ShortenedReadsAreOutcomes, TimeGoesOn, LeavesNow, LeavesBefore, WritesLeave, CutsLeave, SyncsLeave, FailuresGrow, MakesOutcomes, MakesEachOutcome};

/// After a sync that succeeded, and after a crash, a crash leaves what reads give, and nothing else.
pub fn leaves_the_reads()
    ensures { LeavesTheReads }
{}

/// What a crash may leave before a write it may leave during the write and after it, too.
pub fn writes_add_outcomes()
    ensures { WritesAddOutcomes }
{}

/// What a crash may leave before a cut it may leave during the cut and after it, too.
pub fn cuts_add_outcomes()
    ensures { CutsAddOutcomes }
{}

/// However a write that failed was done in part, what reads then give is among what a crash may leave.
pub fn torn_reads_are_outcomes()
    ensures { TornReadsAreOutcomes }
{}

/// However a cut that failed was done in part, what reads then give is among what a crash may leave.
pub fn shortened_reads_are_outcomes()
    ensures { ShortenedReadsAreOutcomes }
{}

/// A call of an honest disk adds at most one moment to its clock, and changes none before it.
pub fn time_goes_on()
    ensures { TimeGoesOn }
{}

/// What a crash leaves at the moment that is now is what it may leave.
pub fn leaves_now()
    ensures { LeavesNow }
{}

/// What a crash leaves at a moment stays as time goes on.
pub fn leaves_before()
    ensures { LeavesBefore }
{}

/// Since a write began, done, done in part or not at all, a crash leaves what it may leave during that write.
pub fn writes_leave()
    ensures { WritesLeave }
{}

/// Since a cut began, done, done in part or not at all, a crash leaves what it may leave during that cut.
pub fn cuts_leave()
    ensures { CutsLeave }
{}

/// A sync adds at most one moment, at which a crash leaves what reads gave before it.
pub fn syncs_leave()
    ensures { SyncsLeave }
{}

/// A call that failed is seen by the counts of failures before and after it, however many calls lie between.
pub fn failures_grow()
    ensures { FailuresGrow }
{}

/// What a length and a fill make in `MemDisk::crash` is among what a crash may leave.
pub fn makes_outcomes()
    ensures { MakesOutcomes }
{}

/// Everything that a crash may leave is made in `MemDisk::crash` by its length and some fill.
pub fn makes_each_outcome()
    ensures { MakesEachOutcome }
{}
