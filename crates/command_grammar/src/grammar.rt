//! A command by what it is called and the words that it takes.

ghost use Rattle.options.specs.Made.{IsMade};
ghost use Rattle.command_grammar.specs.Grammars.{begun_app, grammar_app};

use clap::{Command, Error};
use options::{Word, common, with_words};
use std::alloc::Global;

/// A command by what it is called and the words that it takes.
#[derive(Clone, Copy)]
pub(crate) struct Grammar<'a> {
    pub(crate) name: &'a str,
    /// What it does, in one line.
    pub(crate) about: &'a str,
    /// Whether it takes the options that all commands over covered days have, before its own words.
    pub(crate) has_days: bool,
    pub(crate) words: &'a [Word<'a>],
    /// The text below its options.
    pub(crate) more: &'a str,
    /// Its usage, if that is written out.
    pub(crate) usage: Option<&'a str>,
}

impl<'a> Grammar<'a> {
    // The command before its own words.
    fn begun(&self, alloc: Global) -> Result<Command<'a>, Error>
        ensures { IsMade (begun_app self.now) result }
    {
        if self.has_days {
            common(alloc, self.name, self.about)
        } else {
            Ok(Command::new(alloc, self.name).about(self.about))
        }
    }

    /// The command for `clap`.
    pub(crate) fn command(&self, alloc: Global) -> Result<Command<'a>, Error>
        ensures { IsMade (grammar_app self.now) result }
    {
        let command = with_words(alloc, self.begun(alloc)?, self.words)?;
        let command = command.after_help(self.more);
        match self.usage {
            Some(usage) => Ok(command.override_usage(usage)),
            None => Ok(command),
        }
    }
}
