//! Replies on the output.

ghost use Rattle.std.specs.Prelude.{OnErr, OnOk};
ghost use Rattle.std.specs.Io.KnownBytes.{Appends};
ghost use Rattle.answer_lines.specs.Printing.{AppendsBeginning};
ghost use Rattle.serving.specs.Tellings.{IsBegun, IsPrinted};

use crate::telling::ReplyTeller;
use answer_lines::print_bytes;
use feed_basis::Basis;
use questions::Question;
use reply_lines::Reply;
use std::alloc::Global;
use std::io::Write;

/// The output refused a write: a beginning of the reply may stand there.
#[derive(Clone, Copy, Debug, PartialEq, Eq)]
pub(crate) struct OutputRefused;

// Prints a text on `out`, and flushes. It takes no memory.
fn print_text<W: Write>(text: &str, out: &mut W) -> Result<(), OutputRefused>
    ensures ok { OnOk result (Appends (W.contents out.old) (W.contents out.new) text.now) }
    ensures err { OnErr result (AppendsBeginning (W.contents out.old) (W.contents out.new) text.now) }
{
    match print_bytes(text.as_bytes(), out) {
        Ok(()) => Ok(()),
        Err(_) => Err(OutputRefused),
    }
}

/// Prints the reply to a question, or to a line that is none, on `out`, and flushes. Or it prints that memory was refused, if there is none
/// for the reply's text.
pub(crate) fn print_reply<T: ReplyTeller, W: Write>(
    alloc: Global,
    basis: &Basis,
    teller: &T,
    question: &Option<Question<'_>>,
    reply: &Reply<'_>,
    out: &mut W,
) -> Result<(), OutputRefused>
    ensures ok { OnOk result (IsPrinted (T.tells teller.now basis.now question.now) reply.now (W.contents out.old) (W.contents out.new)) }
    ensures err { OnErr result (IsBegun (T.tells teller.now basis.now question.now) reply.now (W.contents out.old) (W.contents out.new)) }
{
    match teller.told(alloc, basis, question, reply) {
        Ok(text) => print_text(&text, out),
        Err(_) => print_text(teller.memory_refused(), out),
    }
}
