//! Which stops and stations are listed.

ghost use Rattle.std.specs.Prelude.{IfNone, IfSome};
ghost use Rattle.clap.specs.Words.{rows_of, found_of};
ghost use Rattle.option_words.specs.StopWords.{HasSearchedStops};
ghost use Rattle.option_words.specs.declared.stop_search.StopSearch.{StopSearch as StopSearchData};

use crate::format::{Style, style_of};
use clap::ArgMatches;
use options::{flag_of, text_of};

/// Which stops and stations are listed, and how.
#[derive(Clone, Copy)]
pub struct StopSearch<'a> {
    /// The folder of the feed.
    pub feed: &'a str,
    /// What their id or name contains: all are meant if there is none.
    pub text: Option<&'a str>,
    /// Whether all of them are listed, not only the first ones.
    pub all: bool,
    /// Whether a line with the names of the fields stands first.
    pub header: bool,
    pub style: Style,
}

/// The stops that the words ask for: none if a word isn't there, or the format is none.
pub fn stops_of<'m, 'a>(found: &'m ArgMatches<'a>) -> Option<StopSearch<'m>>
    ensures search { IfSome result (HasSearchedStops (rows_of (found_of found.now))) }
    ensures none { IfNone result ((search : StopSearchData) → ¬ HasSearchedStops (rows_of (found_of found.now)) search) }
{
    Some(StopSearch {
        feed: text_of(found, "feed")?,
        text: text_of(found, "text"),
        all: flag_of(found, "all"),
        header: flag_of(found, "header"),
        style: style_of("stops", found)?,
    })
}
