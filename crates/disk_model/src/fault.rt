//! What a disk answers when it can't do as it was asked.

use thiserror::Error;

/// What a call of a disk answers when it failed. The disk counts it.
#[derive(Clone, Copy, Debug, PartialEq, Eq, Error)]
pub enum DiskFault {
    /// The call wasn't done, or was done in part.
    #[error("the disk failed")]
    Failed,
}

/// Why a stretch of a file wasn't read.
#[derive(Clone, Copy, Debug, PartialEq, Eq, Error)]
pub enum ReadFault {
    /// A call of the disk failed.
    #[error("the disk failed")]
    Failed,
    /// Memory ran out.
    #[error("memory ran out")]
    Memory,
}

/// Why a file wasn't opened.
#[derive(Clone, Copy, Debug, PartialEq, Eq, Error)]
pub enum FileFault {
    /// Another process has the file open, or this one has it open once more.
    #[error("the file is in use")]
    InUse,
    /// The system refused.
    #[error("the file can't be opened")]
    Failed,
}
