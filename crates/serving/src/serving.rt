//! Replies to all lines of an input.

ghost use Rattle.std.specs.Prelude.{◌≡◌, IfSome, List, MatchResult, ℕ};
ghost use Rattle.question_lines.specs.Lines.{IsKept};
ghost use Rattle.serving.specs.Answers.{IsOver, IsReply};
ghost use Rattle.serving.specs.Runs.{IsCutOff, IsReplied, IsServed};
ghost use Rattle.serving.specs.Tellings.{IsReplyText};

use crate::printing::{OutputRefused, print_reply};
use crate::replying::reply_of;
use crate::telling::ReplyTeller;
use board::Reader;
use feed_basis::Basis;
use planner::Planner;
use question_lines::Line;
use std::alloc::Global;
use std::io::{BufRead, Write};

/// How the serving of an input ended.
#[derive(Clone, Copy, Debug, PartialEq, Eq)]
pub enum End {
    /// All lines are replied to.
    AllRead,
    /// The input couldn't be read on. All lines that were read are replied to.
    Unread,
    /// The output refused a write: a beginning of the replies to the lines that were read stands there.
    OutputRefused,
    /// Memory was refused before the first line was read.
    NoMemory,
}

// Replies to one line; the reader comes back.
fn serve_line<'a, T: ReplyTeller, W: Write>(
    alloc: Global,
    planner: &'a Planner,
    basis: &'a Basis,
    teller: &T,
    reader: Reader,
    line: &'a Line,
    out: &mut W,
) -> (Reader, Result<(), OutputRefused>)
    requires over { IsOver basis.now planner.now }
    requires own { reader.origin.form ≡ planner.now.form }
    ensures own { result.0.origin.form ≡ planner.now.form }
    ensures replied { (text : List ℕ) → IsKept text line.now → MatchResult result.1
        (λ _. IsReplied (IsReplyText (T.tells teller.now basis.now) (IsReply planner.now basis.now (T.tells_legs teller.now)))
        text reader result.0 (W.contents out.old) (W.contents out.new))
        (λ _. IsCutOff (IsReplyText (T.tells teller.now basis.now) (IsReply planner.now basis.now (T.tells_legs teller.now)))
        text reader result.0 (W.contents out.old) (W.contents out.new)) }
{
    let question = line.question();
    let legs = teller.legs();
    let (reader, reply) = reply_of(alloc, planner, basis, legs, reader, &question);
    let printed = print_reply(alloc, basis, teller, &question, &reply, out);
    (reader, printed)
}

/// Reads questions from the input, a line each, and replies to each on `out` before the next one is read. The reply is the best journeys
/// between the question's places, as `Planner::ask` gives them on one look of the reader, or the connections, as `ask_within` gives them on
/// such a look, or why there are none, as the teller says it. It waits for nobody but the input and the output. The basis is that of the
/// planner's timetable.
///
/// A line is the ids of two places, a date (`YYYYMMDD`) and a time (`HH:MM:SS`), with a tab between each and the next. Another time may
/// follow after a tab, of the same day: it asks for the connections until then. Any other line is refused, and so is one of more than
/// 65,536 bytes, whose rest is skipped. If memory is refused for a line, that is replied.
pub fn serve_lines<T: ReplyTeller, R: BufRead, W: Write>(
    alloc: Global,
    planner: &Planner,
    basis: &Basis,
    teller: &T,
    reader: Reader,
    input: &mut R,
    out: &mut W,
) -> End
    requires over { IsOver basis.now planner.now }
    requires own { reader.origin.form ≡ planner.now.form }
    ensures { IfSome (R.remaining input.old) (λ bytes.
        IsServed (IsReplyText (T.tells teller.now basis.now) (IsReply planner.now basis.now (T.tells_legs teller.now)))
        reader bytes (W.contents out.old) (W.contents out.new) result) }
{
    let Ok(mut line) = Line::new(alloc) else {
        return End::NoMemory;
    };
    let mut reader = reader;
    'lines: for _ in 0..u64::MAX {
        match line.read(input) {
            Ok(true) => {}
            Ok(false) => return End::AllRead,
            Err(_) => return End::Unread,
        }
        let (next, printed) = serve_line(alloc, &*planner, &*basis, teller, reader, &line, out);
        reader = next;
        if printed.is_err() {
            return End::OutputRefused;
        }
    }
    End::Unread
}
