//! The reply to a question for connections.

ghost use Rattle.std.specs.Prelude.{◌≡◌, List, Some, ℕ};
ghost use Rattle.question_lines.specs.Questions.{IsQuestion};
ghost use Rattle.serving.specs.Answers.{IsOver, IsReply, reply_of};

use crate::look::Look;
use board::Reader;
use connection_lines::Connections;
use faults::Fault;
use feed_basis::Basis;
use planner::Planner;
use questions::{Question, Within};
use reply_lines::{Refusal, Reply};
use std::alloc::Global;
use told_connections::{ask_within, times_of};

// The reply by what was found.
fn reply_of<'a>(found: Result<Connections, Fault<'a>>) -> Reply<'a>
    ensures { result ≡ reply_of found.entry }
{
    match found {
        Ok(connections) => Reply::Connections(connections),
        Err(Fault::Question(refusal)) => Reply::Refused(Refusal::Question(refusal)),
        Err(_) => Reply::Refused(Refusal::Memory),
    }
}

/// The reply to a question that asks for these connections, on one look of the reader, which comes back.
pub(crate) fn reply_within<'a>(
    alloc: Global,
    planner: &Planner,
    basis: &'a Basis,
    legs: bool,
    reader: Reader,
    question: &Question<'a>,
    within: Within,
) -> (Reader, Reply<'a>)
    requires over { IsOver basis.now planner.now }
    requires own { reader.origin.form ≡ planner.now.form }
    requires asked { question.now.within ≡ Some within }
    ensures { (line : List ℕ) → IsQuestion line question.now → IsReply planner.now basis.now legs line reader result.0 result.1 }
{
    let times = times_of(basis, question, within);
    let view = match reader.look() {
        Ok(view) => view,
        Err(reader) => return (reader, Reply::Refused(Refusal::BoardRefused)),
    };
    // It says that the list goes on from the opened trees with such as are complete.
    let _shown = view.told();
    let look = Look { view };
    let found = ask_within(
        alloc,
        basis,
        planner.network(),
        &look,
        question,
        times,
        legs,
    );
    let Look { view } = look;
    (view.leave(), reply_of(found))
}
