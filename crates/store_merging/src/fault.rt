//! Why parts aren't put together.

use merging::MergeFault;
use store_faults::RecoverFault;
use thiserror::Error;

/// Why the trees of parts aren't put together, or not all of them.
#[derive(Clone, Copy, Debug, PartialEq, Eq, Error)]
pub enum UnmergedFault {
    /// The file into which they are put wasn't opened. Nothing was put.
    #[error("{0}")]
    Unopened(RecoverFault),
    /// A tree wasn't read from its part, or wasn't put. What was put before stays.
    #[error("{0}")]
    Stopped(MergeFault),
    /// Memory ran out for the report. All trees were put.
    #[error("Memory")]
    Untold,
}
