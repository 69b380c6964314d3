//! A check of a feed as a whole.

ghost use Rattle.std.specs.Prelude.{IfErr, IfOk};
ghost use Rattle.clap.specs.Words.{rows_of, found_of};
ghost use Rattle.command_line.specs.FeedWords.{IsCheck};
ghost use Rattle.command_line.specs.FeedReadings.{IsCheckFault};

use crate::unread::{Unread, Word};
use civil_dates::Date;
use clap::ArgMatches;
use gtfs_text::date;
use option_words::{Style, plain_style_of};
use options::{flag_of, text_of};

/// A check of a feed as a whole.
#[derive(Clone, Copy)]
pub struct FeedCheck<'a> {
    /// The folder of the feed.
    pub feed: &'a str,
    /// The date around which the trips of a day are counted: from the first day of service on, if there is none.
    pub date: Option<Date>,
    /// Whether all faults of the feed are listed, not the first only.
    pub all: bool,
    /// How the result is printed: as lines, or as JSON.
    pub style: Style,
}

/// The check that the words ask for. Its date may be none of the calendar. A fault that words are shown for has status 2.
pub(crate) fn check_of<'m, 'a>(found: &'m ArgMatches<'a>) -> Result<FeedCheck<'m>, Unread<'m>>
    ensures check { IfOk result (IsCheck (rows_of (found_of found.now))) }
    ensures fault { IfErr result (IsCheckFault (rows_of (found_of found.now))) }
{
    let Some(feed) = text_of(found, "feed") else {
        return Err(Unread::Shown(2));
    };
    let Some(style) = plain_style_of(found) else {
        return Err(Unread::Shown(2));
    };
    let all = flag_of(found, "all");
    let Some(text) = text_of(found, "date") else {
        return Ok(FeedCheck {
            feed,
            date: None,
            all,
            style,
        });
    };
    match date(text) {
        Some(day) => Ok(FeedCheck {
            feed,
            date: Some(day),
            all,
            style,
        }),
        None => Err(Unread::BadDate(
            style,
            Word {
                option: "date",
                text,
            },
        )),
    }
}
