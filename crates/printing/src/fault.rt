//! Faults on standard error.

ghost use Rattle.std.specs.Prelude.{◌≡◌, ℕ, List, IfSome, string_bytes};
ghost use Rattle.faults.specs.Faults.{status_of};
ghost use Rattle.printing.specs.Faults.{AreFaultLines, IsFaultSaid, IsFormatText, IsHint, has_hint, voice_of};
ghost use Rattle.streams.specs.Streams.{IsSaid};

use crate::teller::Teller;
use command_line::{Given, Plan, given_by};
use faults::{Fault, FaultLines};
use option_words::Style;
use pattern_query::Refusal;
use service_days::DayFault;
use std::alloc::Global;
use std::io::Write;
use streams::Stream;

/// In which style a command reports what it came to, and what its words say that a fault may be about.
#[derive(Clone, Copy)]
pub struct Voice<'a> {
    pub style: Style,
    pub given: Given<'a>,
}

/// How a plan is reported.
pub fn voice_of<'a>(plan: &Plan<'a>) -> Voice<'a>
    ensures { result ≡ voice_of plan.now }
{
    Voice {
        style: plan.style,
        given: given_by(plan),
    }
}

// The text of a fault in a format; none if it is printed as in lines.
fn format_text<T: Teller>(
    alloc: Global,
    teller: &T,
    voice: &Voice<'_>,
    fault: &Fault<'_>,
) -> Option<String>
    ensures { IfSome result (λ text. IsFormatText T.telling voice.now.given
        voice.now.style fault.now (string_bytes text)) }
{
    match voice.style {
        Style::Lines => None,
        Style::Told(format) => teller.fault(alloc, format, &voice.given, fault),
    }
}

// Whether lines may be added to those of a fault.
fn has_hint(fault: &Fault<'_>) -> bool
    ensures { result ≡ has_hint fault.now }
{
    match fault {
        Fault::BadDate | Fault::BadTime | Fault::Feed(_) => true,
        Fault::Days(DayFault::BadZone) => true,
        Fault::Question(Refusal::UnknownStop(_)) => true,
        _ => false,
    }
}

// Lines that are added to those of the fault, if there are any.
fn hint_lines<T: Teller>(
    alloc: Global,
    teller: &T,
    given: &Given<'_>,
    fault: &Fault<'_>,
) -> Option<String>
    ensures { IfSome result (λ text. IsHint T.telling given.now fault.now
        (string_bytes text)) }
{
    if !has_hint(fault) {
        return None;
    }
    teller.hint(alloc, given, fault)
}

// Says a fault by its lines.
fn say_lines<T: Teller, E: Write + Drop>(
    alloc: Global,
    teller: &T,
    given: &Given<'_>,
    fault: &Fault<'_>,
    err: &mut Stream<E>,
)
    ensures { (text : List ℕ) × AreFaultLines T.telling given.now fault.now text
        × IsSaid text err.old err.new }
{
    match hint_lines(alloc, teller, given, fault) {
        Some(hint) => err.say(format_args!("{}{hint}", FaultLines(fault))),
        None => err.say(FaultLines(fault)),
    }
}

/// Says a fault on standard error, as the voice has it: in a format by the teller's text; else by its lines, and those that the teller adds
/// to them. It gives the status of the fault.
pub fn tell_fault<T: Teller, E: Write + Drop>(
    alloc: Global,
    teller: &T,
    voice: &Voice<'_>,
    fault: &Fault<'_>,
    err: &mut Stream<E>,
) -> u8
    ensures status { result ≡ status_of fault.now }
    ensures said { IsFaultSaid T.telling voice.now fault.now err.old err.new }
{
    match format_text(alloc, teller, voice, fault) {
        Some(text) => err.say(text.as_str()),
        None => say_lines(alloc, teller, &voice.given, fault, err),
    }
    fault.status()
}
