//! Who makes the texts.

ghost use Rattle.std.specs.Prelude.{◌≡◌, Option, IfOk, IfErr, IfSome, string_bytes};
ghost use Rattle.feed_basis.specs.Basis.{BasisData};
ghost use Rattle.questions.specs.declared.question.Question.{Question};
ghost use Rattle.reply_lines.specs.Printed.{no_memory};
ghost use Rattle.printing.specs.Tellings.{IsStopsFault, Telling, tells_legs};

use crate::asked::Asked;
use answer_lines::{Answer, Report};
use command_line::{Given, Plan};
use connection_lines::Connections;
use faults::Fault;
use feed_basis::Basis;
use feed_report::FeedReport;
use file_faults::FaultList;
use gtfs_rows::FeedFault;
use option_words::{Format, StopSearch, Style};
use options::Settings;
use questions::Question;
use reply_lines::Reply;
use std::alloc::{AllocError, Global};

/// Makes the texts of answers, connections, reports, replies and faults in formats beside lines, of lists of stops, and what is added to
/// the lines of a fault. A text ends with a line's end.
/// Its ghost says which texts may be made of what; callers rely on no more.
pub trait Teller: Copy {
    /// What names and times of replies are looked up in.
    type Lookup: Drop;

    /// What the files of a feed have at the places of its faults.
    type Places: Drop;

    /// Which texts may be made.
    ghost telling: { Telling };

    /// The text of an answer in a format. It fails only if memory runs out.
    fn answer(
        &self,
        alloc: Global,
        format: Format,
        asked: &Asked<'_, '_>,
        basis: &Basis,
        answer: &Answer,
    ) -> Result<String, AllocError>
        ensures { IfOk result (λ text. telling.tells format basis.now answer.now (string_bytes text)) };

    /// The text of the connections of a window in a format. It fails only if memory runs out.
    fn connections(
        &self,
        alloc: Global,
        format: Format,
        asked: &Asked<'_, '_>,
        basis: &Basis,
        connections: &Connections,
    ) -> Result<String, AllocError>
        ensures { IfOk result (λ text. telling.connects format basis.now connections.now (string_bytes text)) };

    /// The text of a command's report in a format, by the settings of its feed. It fails only if memory runs out.
    fn report(
        &self,
        alloc: Global,
        format: Format,
        command: &str,
        settings: &Settings<'_>,
        report: &Report<'_>,
    ) -> Result<String, AllocError>
        ensures { IfOk result (λ text. telling.reports format report.now (string_bytes text)) };

    /// The text in a format of what the feed in a folder has. It fails only if memory runs out.
    fn feed(
        &self,
        alloc: Global,
        format: Format,
        folder: &str,
        report: &FeedReport,
    ) -> Result<String, AllocError>
        ensures { IfOk result (λ text. telling.feeds format report.now (string_bytes text)) };

    /// The text in a format of all faults of the feed in a folder. It fails only if memory runs out.
    fn fault_list(
        &self,
        alloc: Global,
        format: Format,
        folder: &str,
        list: &FaultList,
    ) -> Result<String, AllocError>
        ensures { IfOk result (λ text. telling.lists format list.now (string_bytes text)) };

    /// What the files of the feed in a folder have at the places of these faults, looked up once for all of them. It fails only if memory
    /// runs out.
    fn places(
        &self,
        alloc: Global,
        folder: &str,
        faults: &[FeedFault],
    ) -> Result<Self::Places, AllocError>;

    /// Lines that are added to those of a fault, as `hint` gives them, by the places of faults: its own is the one at `at`, from 0.
    /// None if there is nothing to add. It fails only if memory runs out.
    fn place_hint(
        &self,
        alloc: Global,
        places: &Self::Places,
        at: usize,
        given: &Given<'_>,
        fault: &Fault<'_>,
    ) -> Result<Option<String>, AllocError>
        ensures { IfOk result (λ found. IfSome found (λ text. telling.hints given.now fault.now (string_bytes text))) };

    /// The text of the stops and stations that are searched for. A fault is of the feed, or want of memory.
    fn stops(&self, alloc: Global, search: &StopSearch<'_>) -> Result<String, Fault<'static>>
        ensures text { IfOk result (λ text. telling.finds search.now (string_bytes text)) }
        ensures fault { IfErr result IsStopsFault };

    /// What replies over the plan's feed are looked up in, made once for all of them. It fails only if memory runs out.
    fn lookup(&self, alloc: Global, plan: &Plan<'_>) -> Result<Self::Lookup, AllocError>;

    /// The text of a reply in a format, to a line that is this question, or none. It fails only if memory runs out.
    fn reply(
        &self,
        alloc: Global,
        format: Format,
        lookup: &Self::Lookup,
        basis: &Basis,
        question: &Option<Question<'_>>,
        reply: &Reply<'_>,
    ) -> Result<String, AllocError>
        ensures { IfOk result (λ text. telling.replies format basis.now question.now reply.now (string_bytes text)) };

    /// The text in a format of the reply that memory was refused. It takes none.
    fn memory_refused(&self, format: Format) -> &'static str
        ensures { (basis : BasisData) → (question : Option Question) → telling.replies format basis question no_memory result.now };

    /// The text of a fault in a format, by what the words say; none if it is printed as lines.
    fn fault(
        &self,
        alloc: Global,
        format: Format,
        given: &Given<'_>,
        fault: &Fault<'_>,
    ) -> Option<String>
        ensures { IfSome result (λ text. telling.faults format given.now fault.now (string_bytes text)) };

    /// Lines that are added to those of a fault: what the words or the feed have at its place, or what may be meant. None if there is
    /// nothing to add.
    fn hint(&self, alloc: Global, given: &Given<'_>, fault: &Fault<'_>) -> Option<String>
        ensures { IfSome result (λ text. telling.hints given.now fault.now (string_bytes text)) };
}

/// Whether the rides and walks of journeys are reported: a format reports them, whether or not the words ask for them.
pub fn tells_legs(style: Style, legs: bool) -> bool
    ensures { result ≡ tells_legs style legs }
{
    match style {
        Style::Lines => legs,
        Style::Told(_) => true,
    }
}
