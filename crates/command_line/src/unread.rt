//! Why words give no job.

ghost use Rattle.clap.specs.Words.{rows_of, found_of};
ghost use Rattle.command_line.specs.Readings.{IsDateWord, IsUnreadOf, IsWordOf};

use civil_dates::Date;
use clap::ArgMatches;
use option_words::{Style, WordFault};
use options::text_of;

/// An option and the text that the words have for it.
#[derive(Clone, Copy)]
pub struct Word<'a> {
    /// The name of the option, without dashes.
    pub option: &'static str,
    pub text: &'a str,
}

/// Why words give no job.
#[derive(Clone, Copy)]
pub enum Unread<'a> {
    /// What is to be shown was written, and goes with this status.
    Shown(u8),
    /// A day is none of the calendar: a fault to report in this style, with the word that has it.
    BadDate(Style, Word<'a>),
    /// A time is none: a fault to report in this style, with the word that has it.
    BadTime(Style, Word<'a>),
}

// An option with its text: an empty one if there is none.
fn word_of<'a>(found: &ArgMatches<'a>, option: &'static str) -> Word<'a>
    ensures { IsWordOf (rows_of (found_of found.now)) option.now result }
{
    Word {
        option,
        text: text_of(found, option).unwrap_or(""),
    }
}

// The word that has a day which is none: `first` is the first covered day, of this text.
fn date_word<'a>(found: &ArgMatches<'a>, date: &'a str, first: Option<Date>) -> Word<'a>
    ensures { IsDateWord (rows_of (found_of found.now)) date.now first result }
{
    match first {
        None => Word {
            option: "date",
            text: date,
        },
        Some(_) => word_of(found, "on"),
    }
}

/// The fault of a command that answers in this style, with the word at fault. `first` is the first covered day, of the text `date`.
pub(crate) fn unread_of<'a>(
    found: &ArgMatches<'a>,
    date: &'a str,
    first: Option<Date>,
    fault: WordFault,
    style: Style,
) -> Unread<'a>
    ensures { IsUnreadOf (rows_of (found_of found.now)) date.now first style fault result }
{
    match fault {
        WordFault::NoJob => Unread::Shown(2),
        WordFault::BadDate => Unread::BadDate(style, date_word(found, date, first)),
        WordFault::BadLastDay => Unread::BadDate(style, word_of(found, "until-on")),
        WordFault::BadTime => Unread::BadTime(style, word_of(found, "at")),
        WordFault::BadUntil => Unread::BadTime(style, word_of(found, "until")),
    }
}
