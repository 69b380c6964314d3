//! Replies as texts: who makes them.

ghost use Rattle.std.specs.Prelude.{◌≡◌, Bool, Option, IfOk, string_bytes};
ghost use Rattle.feed_basis.specs.Basis.{BasisData};
ghost use Rattle.questions.specs.declared.question.Question.{Question};
ghost use Rattle.reply_lines.specs.Printed.{no_memory};
ghost use Rattle.reply_lines.specs.Tellings.{Telling};

use feed_basis::Basis;
use questions::Question;
use reply_lines::Reply;
use std::alloc::{AllocError, Global};
use std::format;

/// Makes the texts of replies to lines. A text ends with a line's end.
pub trait ReplyTeller {
    /// Which texts tell a reply to a line that is this question, or none, over a basis.
    ghost tells: { Self → BasisData → Telling };

    /// Whether a text has the rides and walks of journeys.
    ghost tells_legs: { Self → Bool };

    /// Whether a text has the rides and walks of journeys.
    fn legs(&self) -> bool
        ensures { result ≡ tells_legs self.now };

    /// The text of a reply to a line that is this question, or none, over the basis. It fails only if memory runs out.
    fn told(
        &self,
        alloc: Global,
        basis: &Basis,
        question: &Option<Question<'_>>,
        reply: &Reply<'_>,
    ) -> Result<String, AllocError>
        ensures { IfOk result (λ text. tells self.now basis.now question.now reply.now (string_bytes text)) };

    /// The text of the reply that memory was refused. It takes none.
    fn memory_refused(&self) -> &'static str
        ensures { (basis : BasisData) → (question : Option Question) → tells self.now basis question no_memory result.now };
}

/// Prints replies as lines: those of an answer, or `refused` and why there is none, and then a line with only a dot. The lines have no
/// rides and walks.
#[derive(Clone, Copy, Debug, PartialEq, Eq)]
pub struct Lines;

impl ReplyTeller for Lines {
    ghost use Rattle.std.specs.Prelude.{false};
    ghost use Rattle.reply_lines.specs.Tellings.{line_telling};

    ghost tells = { λ _ _. line_telling };

    ghost tells_legs = { λ _. false };

    fn legs(&self) -> bool {
        false
    }

    fn told(
        &self,
        alloc: Global,
        _basis: &Basis,
        _question: &Option<Question<'_>>,
        reply: &Reply<'_>,
    ) -> Result<String, AllocError> {
        format!(in alloc; "{reply}")
    }

    fn memory_refused(&self) -> &'static str {
        "refused Memory\n.\n"
    }
}
