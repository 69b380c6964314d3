//! Replies in a format beside their lines.

use feed_basis::Basis;
use option_words::Format;
use printing::Teller;
use questions::Question;
use reply_lines::Reply;
use serving::ReplyTeller;
use std::alloc::{AllocError, Global};

/// Tells replies in a format, with their rides and walks, as a teller has them.
#[derive(Drop)]
pub struct FormatReplies<T: Teller> {
    pub teller: T,
    pub format: Format,
    /// What the teller looks names and times up in.
    pub lookup: T::Lookup,
}

impl<T: Teller> ReplyTeller for FormatReplies<T> {
    ghost use Rattle.std.specs.Prelude.{true};

    ghost tells = { λ s basis question reply text. T.telling.replies s.format basis question reply text };

    ghost tells_legs = { λ _. true };

    fn legs(&self) -> bool {
        true
    }

    fn told(
        &self,
        alloc: Global,
        basis: &Basis,
        question: &Option<Question<'_>>,
        reply: &Reply<'_>,
    ) -> Result<String, AllocError> {
        self.teller
            .reply(alloc, self.format, &self.lookup, basis, question, reply)
    }

    fn memory_refused(&self) -> &'static str {
        self.teller.memory_refused(self.format)
    }
}
