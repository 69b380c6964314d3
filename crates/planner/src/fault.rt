//! Why a question has no answer, and why a planner isn't opened.

use pattern_query::Refusal;
use store_faults::RecoverFault;
use thiserror::Error;

/// Why a planner gives no answer.
#[derive(Clone, Copy, Debug, PartialEq, Eq)]
pub enum AskFault<'a> {
    /// The board was closed, or it would have shown less than its reader knew.
    BoardRefused,
    /// The question has no answer from the trees that the board showed.
    Question(Refusal<'a>),
}

/// Why a planner wasn't opened.
#[derive(Clone, Copy, Debug, PartialEq, Eq, Error)]
pub enum OpenFault {
    /// The file wasn't opened as a store.
    #[error("{0}")]
    Recover(RecoverFault),
    /// Memory was refused after the recovery, or a reader found no place.
    #[error("Memory")]
    Memory,
}
