//! What is wrong with words that name no question, task or search.

/// What is wrong with the words of a question, a task, a search or a command. The first fault in this order is the one that is reported.
#[derive(Clone, Copy)]
pub enum WordFault {
    /// No command has the name, or a word that must be there isn't, or one doesn't go with the others.
    NoJob,
    /// The day of a question is no date.
    BadDate,
    /// The day of the last time to leave at is no date.
    BadLastDay,
    /// The time to leave at is none.
    BadTime,
    /// The last time to leave at is none.
    BadUntil,
}
