//! Why trees aren't put together.

use section_store::PutFault;
use thiserror::Error;

/// Why the tree of a stop isn't given.
#[derive(Clone, Copy, Debug, PartialEq, Eq, Error)]
pub enum ShelfFault {
    /// A read of the part of that index failed.
    #[error("Z5 Device")]
    Device(usize),
    /// Memory ran out.
    #[error("Z6 Memory")]
    Memory,
    /// A read of the part of that index gave other bytes than before.
    #[error("Z8 Changed")]
    Changed(usize),
}

/// Why not all trees were put.
#[derive(Clone, Copy, Debug, PartialEq, Eq, Error)]
pub enum MergeFault {
    /// A tree wasn't read.
    #[error("{0}")]
    Shelf(ShelfFault),
    /// A tree wasn't put.
    #[error("{0}")]
    Put(PutFault),
}
