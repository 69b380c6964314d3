//! Lives of the sample feed's town, and runs of the machine over its trees, in memory.

mod crashes;
mod events;
mod fresh;
mod ledger;
mod lives;
mod opened;
mod replies;
mod runs;
mod stops;
mod town;
