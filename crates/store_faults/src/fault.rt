//! Why a file isn't opened as a store.

use thiserror::Error;

/// Why a file wasn't opened as a store. `Device` and `Memory` say nothing of its bytes; all others come only if the bytes
/// stand for no list of trees.
#[derive(Clone, Copy, Debug, PartialEq, Eq, Error)]
pub enum RecoverFault {
    /// After its open gate the file has another name or version than a store's.
    #[error("Z1 NotAStore")]
    NotAStore,
    /// It is a store of the version before, which is only read, to be migrated.
    #[error("Z7 OldVersion")]
    OldVersion,
    /// It is a store of another timetable.
    #[error("Z2 OtherTimetable")]
    OtherTimetable,
    /// It is a store of journeys of another number of rides.
    #[error("Z3 OtherRides")]
    OtherRides,
    /// The gate or the section of this number, from 0, isn't whole, or its tree can't stand there.
    #[error("Z4 Damaged {0}")]
    Damaged(usize),
    /// A call of the disk failed.
    #[error("Z5 Device")]
    Device,
    /// Memory was refused.
    #[error("Z6 Memory")]
    Memory,
}
