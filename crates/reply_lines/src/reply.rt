//! What is replied to a line.

ghost use Rattle.std.specs.Prelude.{Some};
ghost use Rattle.reply_lines.specs.Printed.{refusal_text, reply_text};

use answer_lines::Answer;
use connection_lines::Connections;
use pattern_query::Refusal as QuestionRefusal;
use std::fmt;

/// Why a line has no answer. Shown by its code, if it has one, and its name.
#[derive(Clone, Copy)]
pub enum Refusal<'a> {
    /// The line is no question.
    BadLine,
    /// The board of the trees gave no look.
    BoardRefused,
    /// The question has no answer from the trees that the board showed.
    Question(QuestionRefusal<'a>),
    /// Memory was refused for this line.
    Memory,
}

/// What is replied to a line: an answer or connections, or why there are none. Shown by its lines and then a line with only a dot, each
/// with its end.
#[derive(Drop)]
pub enum Reply<'a> {
    Answer(Answer),
    Connections(Connections),
    Refused(Refusal<'a>),
}

impl fmt::Display for Refusal<'_> {
    ghost output = { λ refusal. Some (refusal_text refusal) };

    fn fmt<W: fmt::Write>(&self, f: &mut fmt::Formatter<W>) -> fmt::Result {
        match self {
            Refusal::BadLine => write!(f, "BadLine"),
            Refusal::BoardRefused => write!(f, "Q4 BoardRefused"),
            Refusal::Question(refusal) => write!(f, "{refusal}"),
            Refusal::Memory => write!(f, "Memory"),
        }
    }
}

impl fmt::Display for Reply<'_> {
    ghost output = { λ reply. Some (reply_text reply) };

    fn fmt<W: fmt::Write>(&self, f: &mut fmt::Formatter<W>) -> fmt::Result {
        match self {
            Reply::Answer(answer) => write!(f, "{answer}\n.\n"),
            Reply::Connections(connections) => write!(f, "{connections}.\n"),
            Reply::Refused(refusal) => write!(f, "refused {refusal}\n.\n"),
        }
    }
}
