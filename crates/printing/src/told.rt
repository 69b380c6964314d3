//! What goes to standard output.

ghost use Rattle.std.specs.Prelude.{◌≡◌, Some};
ghost use Rattle.printing.specs.Told.{told_status, told_text};

use crate::report::FaultReport;
use answer_lines::{Answer, Report};
use command_grammar::FAULT_TABLE;
use connection_lines::Connections;
use feed_report::FeedReport;
use std::fmt;

/// What a command prints on standard output, shown as its lines, each with its end.
#[derive(Drop)]
pub enum Told<'a> {
    /// What a feed has.
    Feed(FeedReport),
    /// All faults of a feed.
    FeedFaults(FaultReport),
    /// An answer to a question.
    Answer(Answer),
    /// The connections of a window.
    Connections(Connections),
    /// What a store has, or what came of a build.
    Report(Report<'a>),
    /// The faults and the statuses of the program.
    Faults,
    /// A text that a teller made, and the status to end with.
    Text { text: String, status: u8 },
}

impl Told<'_> {
    /// The status to end with.
    pub fn status(&self) -> u8
        ensures { result ≡ told_status self.now }
    {
        match self {
            Told::Report(report) => report.status(),
            Told::Text { status, .. } => *status,
            Told::FeedFaults(_) => 1,
            Told::Feed(_) | Told::Answer(_) | Told::Connections(_) | Told::Faults => 0,
        }
    }
}

impl fmt::Display for Told<'_> {
    ghost output = { λ told. Some (told_text told) };

    fn fmt<W: fmt::Write>(&self, f: &mut fmt::Formatter<W>) -> fmt::Result {
        match self {
            Told::Feed(report) => write!(f, "{report}"),
            Told::FeedFaults(report) => write!(f, "{report}"),
            Told::Answer(answer) => writeln!(f, "{answer}"),
            Told::Connections(connections) => write!(f, "{connections}"),
            Told::Report(report) => write!(f, "{report}"),
            Told::Faults => writeln!(f, "{FAULT_TABLE}"),
            Told::Text { text, .. } => write!(f, "{text}"),
        }
    }
}
