//! Within how many minutes the words ask for stops.

ghost use Rattle.std.specs.Prelude.{IfNone, IfSome, Option};
ghost use Rattle.clap.specs.Words.{rows_of, found_of};
ghost use Rattle.option_words.specs.ReachWords.{AsksMinutes};
ghost use Rattle.option_words.specs.declared.minutes.Minutes.{Minutes as MinutesData};

use crate::minutes::Minutes;
use clap::ArgMatches;
use options::{number_of, text_of};

// The most minutes: those of 14 days.
const MOST: u32 = 20_160;

/// Within how many minutes the words ask for stops, if they say: none if the number is out of its range.
pub fn minutes_of(found: &ArgMatches<'_>) -> Option<Option<Minutes>>
    ensures minutes { IfSome result (AsksMinutes (rows_of (found_of found.now))) }
    ensures none { IfNone result ((minutes : Option MinutesData) → ¬ AsksMinutes (rows_of (found_of found.now)) minutes) }
{
    if text_of(found, "within").is_none() {
        return Some(None);
    }
    let number = number_of(found, "within")?;
    if number > MOST {
        return None;
    }
    Some(Some(Minutes {
        number: number as u16,
    }))
}
