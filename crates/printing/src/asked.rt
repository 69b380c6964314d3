//! What was asked.

ghost use Rattle.std.specs.Prelude.{◌≡◌};

use options::Settings;
use questions::Question;

/// What an answer is an answer to.
#[derive(Clone, Copy)]
pub struct Asked<'p, 'a> {
    pub settings: Settings<'p>,
    /// The name of the command.
    pub command: &'static str,
    pub question: Question<'a>,
}

/// A copy of a question. The borrow checker covers no `*question`, since a day lies beside the references.
pub fn copy_of<'a>(question: &Question<'a>) -> Question<'a>
    ensures { result ≡ question.now }
{
    Question {
        from: question.from,
        to: question.to,
        day: question.day,
        seconds: question.seconds,
        within: question.within,
    }
}
