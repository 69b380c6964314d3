//! The words that a command takes, one by one.

ghost use Rattle.std.specs.Prelude.{◌≡◌, false, fold};
ghost use Rattle.clap.specs.Words.{app_of, rule_of};
ghost use Rattle.clap.specs.declared.builder.command.Command.TheViews.{out-Command as fields_of};
ghost use Rattle.options.specs.Made.{IsMade};
ghost use Rattle.options.specs.Words.{ranged_rule, text_rule, texts_rule, word_rule, with_word};

use crate::options::{defaulted, flag, number, optional, required};
use clap::builder::ValueParser;
use clap::{Arg, Command, Error};
use std::alloc::Global;

/// A word that a command takes: its name, how its value is shown in the help, if it has one, and at last the help itself.
#[derive(Clone, Copy)]
pub enum Word<'a> {
    /// An option that must be given.
    Required(&'a str, &'a str, &'a str),
    /// An option that may be left out.
    Optional(&'a str, &'a str, &'a str),
    /// An option that may be left out, with its value then.
    Defaulted(&'a str, &'a str, &'a str, &'a str),
    /// An option without a value.
    Flag(&'a str, &'a str),
    /// An option whose value is a whole number, with that if it is left out, the least one and the greatest.
    Number(&'a str, &'a str, &'a str, u32, u32, &'a str),
    /// An option whose value is a whole number, with the least one and the greatest, and which may be left out.
    Ranged(&'a str, &'a str, u32, u32, &'a str),
    /// A word that stands without an option, and may be left out.
    Text(&'a str, &'a str, &'a str),
    /// A word that stands without an option, once or more often.
    Texts(&'a str, &'a str, &'a str),
}

// A word that stands without an option, and may be left out. `shown` is how it is shown in the help.
fn text<'a>(alloc: Global, name: &'a str, shown: &'a str, help: &'a str) -> Arg<'a>
    ensures rule { rule_of result ≡ text_rule name.entry.now }
    ensures local { result.global ≡ false }
{
    Arg::new(alloc, name).value_name(shown).help(help)
}

// A word that stands without an option, once or more often.
fn texts<'a>(alloc: Global, name: &'a str, shown: &'a str, help: &'a str) -> Arg<'a>
    ensures rule { rule_of result ≡ texts_rule name.entry.now }
    ensures local { result.global ≡ false }
{
    text(alloc, name, shown, help).num_args(1..).required(true)
}

// An option whose value is a whole number from `least` to `most`, and which may be left out.
fn ranged<'a>(
    alloc: Global,
    name: &'a str,
    shown: &'a str,
    least: u32,
    most: u32,
    help: &'a str,
) -> Arg<'a>
    ensures rule { rule_of result ≡ ranged_rule name.entry.now least most }
    ensures local { result.global ≡ false }
{
    let parser = ValueParser::Signed(i64::from(least), i64::from(most));
    optional(alloc, name, shown, help).value_parser(parser)
}

impl<'a> Word<'a> {
    // The argument of `clap` that it is.
    fn arg(self, alloc: Global) -> Arg<'a>
        ensures rule { rule_of result ≡ word_rule self.entry }
        ensures local { result.global ≡ false }
    {
        match self {
            Word::Required(name, shown, help) => required(alloc, name, shown, help),
            Word::Optional(name, shown, help) => optional(alloc, name, shown, help),
            Word::Defaulted(name, shown, value, help) => {
                defaulted(alloc, name, shown, value, help)
            }
            Word::Flag(name, help) => flag(alloc, name, help),
            Word::Number(name, shown, value, least, most, help) => {
                number(alloc, name, shown, value, least, most, help)
            }
            Word::Ranged(name, shown, least, most, help) => {
                ranged(alloc, name, shown, least, most, help)
            }
            Word::Text(name, shown, help) => text(alloc, name, shown, help),
            Word::Texts(name, shown, help) => texts(alloc, name, shown, help),
        }
    }
}

/// The command with these words too. An error is want of memory.
pub fn with_words<'a>(
    alloc: Global,
    command: Command<'a>,
    words: &[Word<'a>],
) -> Result<Command<'a>, Error>
    requires local { (fields_of command).has_globals ≡ false }
    ensures { IsMade (fold with_word (app_of command.entry) words.now) result }
{
    let mut command = command;
    for word in words {
        command = command.arg(word.arg(alloc))?;
    }
    Ok(command)
}
