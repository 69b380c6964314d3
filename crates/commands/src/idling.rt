//! Covered days on which no trip runs.

ghost use Rattle.commands.specs.Idle.{IsIdleSaid, IsLineSaid};

use answer_lines::ShownDate;
use feed_basis::Basis;
use service_span::Idle;
use std::io::Write;
use streams::Stream;

// Says that no trip runs on the covered days, with the first and the last day of service of the feed.
fn say_line<E: Write + Drop>(idle: &Idle, err: &mut Stream<E>)
    ensures { IsLineSaid idle.now err.old err.new }
{
    match &idle.span {
        None => {
            err.say("tp: no trip runs on the covered days, as the feed has no day of service\n")
        }
        Some(span) => err.say(format_args!(
            "tp: no trip runs on the covered days: the first day of service is {}, the last {}\n",
            ShownDate(span.first),
            ShownDate(span.last)
        )),
    }
}

/// Says on standard error if no trip runs on the covered days, nor into them from the day before.
pub fn say_idle<E: Write + Drop>(basis: &Basis, err: &mut Stream<E>)
    ensures { IsIdleSaid basis.now.idle basis.now.timetable.instances err.old err.new }
{
    if let Some(idle) = basis.idle() {
        if basis.timetable().instances().is_empty() {
            say_line(&idle, err);
        }
    }
}
