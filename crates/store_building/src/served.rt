//! Replies to questions line by line, while the missing trees are built.

ghost use Rattle.std.specs.Prelude.{◌≡◌, ◌↔◌, MatchResult, IfErr, IfOk};
ghost use Rattle.std.specs.Io.KnownBytes.{Keeps};
ghost use Rattle.store_building.specs.Replies.{IsServing};
ghost use Rattle.store_terms.specs.Stores.{IsUnopened, OnlyFailing, form_over};

use crate::built::{Building, told};
use crate::opening::{OpenStore, open};
use answer_lines::Built;
use board::Reader;
use disk_model::Disk;
use faults::Fault;
use feed_basis::Basis;
use planner::Planner;
use precomputing::{Free, Meanwhile, precompute_while};
use recovery::laws::opening_goes_on;
use section_store::going_laws::goes_on;
use section_store::laws::loses_nothing_in_turn;
use serving::{End, ReplyTeller, serve_lines};
use std::alloc::Global;
use std::io::{BufRead, Write};
use std::sync::Wait;
use std::thread::Threads;
use stop_parts::Part;

/// What came of the questions of an input, and of the build beside them.
#[derive(Drop)]
pub struct Served<'a> {
    /// How the replies came to their end.
    pub end: End,
    /// What the file has then, or why the build came to an early end.
    pub built: Result<Built<'a>, Fault<'a>>,
}

// The questions of an input, which are replied to on an output.
#[derive(Drop)]
struct Serving<'s, T: ReplyTeller, R: BufRead, W: Write + Drop> {
    alloc: Global,
    planner: &'s Planner,
    basis: &'s Basis,
    teller: &'s T,
    reader: Reader,
    input: &'s mut R,
    out: W,
}

// What comes of it is the output and how it ended.
impl<'s, T: ReplyTeller, R: BufRead, W: Write + Drop> Meanwhile for Serving<'s, T, R, W> {
    ghost use Rattle.std.specs.Prelude.{◌≡◌, IfSome};
    ghost use Rattle.serving.specs.Answers.{IsOver, IsReply};
    ghost use Rattle.serving.specs.Runs.{IsServed};
    ghost use Rattle.serving.specs.Tellings.{IsReplyText};

    type Output = (W, End);

    ghost can_run = { λ s. IsOver s.basis.now s.planner.now × (s.reader.origin.form ≡ s.planner.now.form) };

    ghost gives = { λ s given. IfSome (R.remaining s.input.now) (λ bytes.
        IsServed (IsReplyText (T.tells s.teller.now s.basis.now) (IsReply s.planner.now s.basis.now (T.tells_legs s.teller.now)))
        s.reader bytes (W.contents s.out) (W.contents given.0) given.1) };

    fn run(self) -> (W, End) {
        let Self {
            alloc,
            planner,
            basis,
            teller,
            reader,
            input,
            mut out,
        } = self;
        let end = serve_lines(alloc, planner, basis, teller, reader, input, &mut out);
        (out, end)
    }
}

/// Replies to the questions of the input, a line each, on `out`, as the teller has it, while workers build the trees that the file of the
/// disk lacks, and each is stored and shown to who asks. `serve_lines` says what the lines and the replies are, and `build` what a build
/// is. Once there are no more lines, or the output refuses a write, no tree is begun any more, and what is in hand ends. The disk
/// and the output come back.
///
/// Each reply stands for one look at the trees that are stored by then. Of a trusted disk an answer is exactly the best of all journeys.
pub fn serve<
    'a,
    D: Disk + Drop + Send,
    H: Threads + Wait + Sync,
    T: ReplyTeller,
    R: BufRead,
    W: Write + Drop,
>(
    alloc: Global,
    rt: &H,
    building: &Building<'a>,
    disk: D,
    teller: &T,
    input: &mut R,
    out: W,
) -> (Result<Served<'a>, Fault<'a>>, D, W)
    ensures served { D.honest disk → MatchResult result.0
        (IsServing building.now.basis.now building.now.rides
        (λ question reply text. T.tells teller.now building.now.basis.now question reply text) (T.tells_legs teller.now)
        (D.state disk) (D.state result.1) (R.remaining input.old) (W.contents out) (W.contents result.2))
        (IsUnopened (form_over building.now.basis.now building.now.rides) (D.state disk) (D.state result.1)) }
    ensures kept { IfErr result.0 (λ _. Keeps (W.contents out) (W.contents result.2)) }
    ensures device { MatchResult result.0 (λ served. IfErr served.built (OnlyFailing (D.failures disk) (D.failures result.1)))
        (OnlyFailing (D.failures disk) (D.failures result.1)) }
    ensures honest { D.honest disk ↔ D.honest result.1 }
{
    opening_goes_on();
    goes_on();
    loses_nothing_in_turn();
    let Building {
        basis,
        rides,
        workers,
    } = *building;
    let OpenStore {
        planner,
        desk,
        reader,
    } = match open(alloc, rt, basis, rides, disk) {
        Ok(opened) => opened,
        Err((fault, disk)) => return (Err(Fault::from(fault)), disk, out),
    };
    let serving = Serving {
        alloc,
        planner: &planner,
        basis,
        teller,
        reader,
        input,
        out,
    };
    let workers = usize::from(workers.number);
    let (desk, outcome, (out, end)) = precompute_while(
        alloc, rt, desk, &planner, workers, &Free, serving,
    );
    let built = told(alloc, basis, Part::whole(), desk.stored(), &outcome);
    (Ok(Served { end, built }), desk.into_disk(rt), out)
}
