//! The options that the programs have.

ghost use Rattle.std.specs.Prelude.{◌≡◌, false};
ghost use Rattle.clap.specs.Words.{rule_of};
ghost use Rattle.options.specs.Made.{IsMade};
ghost use Rattle.options.specs.Options.{required_rule, optional_rule, flag_rule, defaulted_rule, number_rule, common_app};

use crate::word::{Word, with_words};
use clap::builder::ValueParser;
use clap::{Arg, ArgAction, Command, Error};
use std::alloc::Global;

const DAYS: &str = "How many days are covered, 1 to 14";

const ZONE: &str = "The zone's POSIX rule, as CET-1CEST,M3.5.0,M10.5.0/3";

const RIDES: &str = "The most rides of a journey, 1 to 8";

const WALK: &str = "Seconds of a walk or change without any, up to 86400";

/// An option that may be left out: it has no value then. `shown` is how its value is shown in the help.
pub(crate) fn optional<'a>(alloc: Global, name: &'a str, shown: &'a str, help: &'a str) -> Arg<'a>
    ensures rule { rule_of result ≡ optional_rule name.entry.now }
    ensures local { result.global ≡ false }
{
    Arg::new(alloc, name)
        .long(name)
        .value_name(shown)
        .action(ArgAction::Set)
        .help(help)
}

/// An option that must be given, with how its value is shown in the help, and the help itself.
pub(crate) fn required<'a>(alloc: Global, name: &'a str, shown: &'a str, help: &'a str) -> Arg<'a>
    ensures rule { rule_of result ≡ required_rule name.entry.now }
    ensures local { result.global ≡ false }
{
    optional(alloc, name, shown, help).required(true)
}

/// An option that may be left out: it has this value then.
pub(crate) fn defaulted<'a>(
    alloc: Global,
    name: &'a str,
    shown: &'a str,
    value: &'a str,
    help: &'a str,
) -> Arg<'a>
    ensures rule { rule_of result ≡ defaulted_rule name.entry.now value.entry.now }
    ensures local { result.global ≡ false }
{
    optional(alloc, name, shown, help).default_value(value)
}

/// An option without a value: it is there, or it isn't.
pub(crate) fn flag<'a>(alloc: Global, name: &'a str, help: &'a str) -> Arg<'a>
    ensures rule { rule_of result ≡ flag_rule name.entry.now }
    ensures local { result.global ≡ false }
{
    Arg::new(alloc, name)
        .long(name)
        .action(ArgAction::SetTrue)
        .help(help)
}

/// An option whose value is a whole number from `least` to `most`, and `value` if it is left out.
pub(crate) fn number<'a>(
    alloc: Global,
    name: &'a str,
    shown: &'a str,
    value: &'a str,
    least: u32,
    most: u32,
    help: &'a str,
) -> Arg<'a>
    ensures rule { rule_of result ≡ number_rule name.entry.now value.entry.now least most }
    ensures local { result.global ≡ false }
{
    let parser = ValueParser::Signed(i64::from(least), i64::from(most));
    defaulted(alloc, name, shown, value, help).value_parser(parser)
}

// The options that all commands have.
const COMMON: [Word; 6] = [
    Word::Required("feed", "DIR", "The folder of the feed's files"),
    Word::Required("date", "YYYYMMDD", "The first covered day"),
    Word::Number("days", "N", "1", 0, 255, DAYS),
    Word::Defaulted("zone", "RULE", "<-00>0", ZONE),
    Word::Number("rides", "K", "3", 1, 8, RIDES),
    Word::Number("default-walk", "SECONDS", "120", 0, 86_400, WALK),
];

/// A command with the options that all commands have: the feed, the covered days, the zone, the rides and the walks. An
/// error is want of memory.
pub fn common<'a>(alloc: Global, name: &'a str, about: &'a str) -> Result<Command<'a>, Error>
    ensures { IsMade (common_app name.entry.now) result }
{
    with_words(alloc, Command::new(alloc, name).about(about), &COMMON)
}
